// Replays the corpus of answers that the Rust gave (data/corpus.bin; its format is in docs/CORPUS.md) and compares every answer of every call.
#![tactic(auto)]

use harness_report::report;
use harness_words::{Tally, decode};
use replay_walk::run;
use std::io::Read;
use std::{fs, io};

fn replay_bytes(rt: &impl Print, bytes: &[u8]) -> io::Result<()> {
    let got = bytes.len();
    if 1048576 < got {
        return println!(rt; "replay: FAULT: the corpus is over 131,072 words");
    }
    if got % 8 != 0 {
        return println!(rt; "replay: FAULT: the corpus is not whole words");
    }
    let count = got / 8;
    let mut words = [0; 131072];
    let mut floats = [0.0; 131072];
    decode(bytes, &mut words, &mut floats, count);
    let mut tally = Tally::default();
    let ended = run(&mut tally, &words[..count], &floats[..count]);
    report(rt, tally, ended)
}

fn main(rt: HostRuntime) -> io::Result<()> {
    let Ok(file) = fs::open(&rt, "corpus.bin") else {
        return println!(rt; "replay: FAULT: there is no corpus.bin");
    };
    // On the heap: the checker can't follow an array of a million bytes. Room for a word more than a corpus may have.
    let mut bytes = Vec::new(rt.alloc());
    file.take(1048584).read_to_end(&mut bytes)?;
    replay_bytes(&rt, &bytes)
}
