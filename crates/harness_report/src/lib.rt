// What the program `replay` writes to standard output.
#![tactic(auto)]

use harness_corpus::End;
use harness_words::Tally;
use std::io;

// The one line of a run. Groups and queries count from 0; an entry is one of the buffer.
pub fn report(rt: &impl Print, t: Tally, run: Result<(), End>) -> io::Result<()> {
    let Tally {
        groups,
        queries,
        comparisons,
        query,
    } = t;
    match run {
        Ok(()) => println!(rt;
            "replay: {queries} queries in {groups} groups, {comparisons} comparisons agree"
        ),
        Err(End::Differs(difference)) => println!(rt;
            "replay: DIFFERS in group {groups}, query {query}: {difference}"
        ),
        Err(End::Faulty(fault)) => println!(rt;
            "replay: FAULT in the corpus, group {groups}: {fault}"
        ),
    }
}
