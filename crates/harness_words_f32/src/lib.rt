// f32: written by tools/width from crates/harness_words/src/lib.rt; what has no float is called there.
// What the test programs share: words and floats of bytes, the parts of an answer as words, and the comparison of words.
#![tactic(auto)]

ghost use Rattle.std.specs.Prelude.{◌%◌, ◌≡◌, ◌*◌, ◌≤◌, length, from_bits, to_bits};
ghost use Rattle.std.specs.Float.{binary32};

use harness_words::word_at;

// The float of a bit pattern, the low half of a word: every NaN pattern is the NaN.
pub fn float_of(n: u64) -> f32
    ensures { result ≡ from_bits binary32 (n % 4294967296) }
{
    let low: u32 = (n % 0x1_0000_0000) as u32;
    if 0x7F80_0000 < low % 0x8000_0000 {
        0.0 / 0.0
    } else {
        f32::from_bits(low)
    }
}

// The bit pattern of a float: one pattern for every NaN.
pub fn bits_of(x: f32) -> u64
    ensures { result ≡ to_bits binary32 x }
{
    if x != x {
        0x7FC0_0000
    } else {
        f32::to_bits(x) as u64
    }
}

// The words of the bytes, and the floats of the same bits.
pub fn decode(bytes: &[u8], words: &mut [u64], floats: &mut [f32], count: usize)
    requires count_in_bounds { (count * 8 ≤ length bytes.now) × (count ≤ 131072) }
    requires words_len { (length words.old ≡ 131072) × (length floats.old ≡ 131072) }
    ensures { (length words.new ≡ 131072) × (length floats.new ≡ 131072) }
{
    for i in 0..count {
        let x = word_at(bytes, i * 8);
        words[i] = x;
        floats[i] = float_of(x);
    }
}
