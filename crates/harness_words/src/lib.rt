// What the test programs share: words and floats of bytes, the parts of an answer as words, and the comparison of words.
#![tactic(auto)]

ghost use Rattle.std.specs.Prelude.{◌≡◌, ◌+◌, ◌*◌, ◌≤◌, ◌==◌, cond, length, from_bits, to_bits};
ghost use Rattle.std.specs.Float.{binary64};
ghost use Rattle.harness_words.specs.Bytes.{word_at};
ghost use Rattle.multicubic.specs.Answers.{number_of, query_of, axis_of};
ghost use Rattle.harness_words.specs.Tally.{class_of, compared, agreed};

use multicubic::{Outcome, Saturation};
use std::fmt;

// The calls under test.
#[derive(Clone, Copy)]
pub enum Call {
    New,
    GetLoc,
    InterpOne,
    InterpOneGrad,
    Interp,
    InterpGrad,
    InterpOneWithGrad,
}

impl fmt::Display for Call {
    fn fmt<W: fmt::Write>(&self, f: &mut fmt::Formatter<W>) -> fmt::Result {
        f.write_str(match self {
            Call::New => "new",
            Call::GetLoc => "get_loc",
            Call::InterpOne => "interp_one",
            Call::InterpOneGrad => "interp_one_grad",
            Call::Interp => "interp",
            Call::InterpGrad => "interp_grad",
            Call::InterpOneWithGrad => "interp_one_with_grad",
        })
    }
}

// The parts of an answer.
#[derive(Clone, Copy)]
pub enum Part {
    Number,
    Query,
    Axis,
    Origin,
    Class,
    Value,
    Component,
    Entry,
    Mark,
    Sums,
}

impl fmt::Display for Part {
    fn fmt<W: fmt::Write>(&self, f: &mut fmt::Formatter<W>) -> fmt::Result {
        f.write_str(match self {
            Part::Number => "number",
            Part::Query => "query",
            Part::Axis => "axis",
            Part::Origin => "origin",
            Part::Class => "class",
            Part::Value => "value",
            Part::Component => "component",
            Part::Entry => "entry",
            Part::Mark => "mark",
            Part::Sums => "sums",
        })
    }
}

// What does not agree: a call, the part of its answer, the place in it, and both words.
#[derive(Clone, Copy)]
pub struct Difference {
    pub call: Call,
    pub part: Part,
    pub place: usize,
    pub expected: u64,
    pub found: u64,
}

impl fmt::Display for Difference {
    fn fmt<W: fmt::Write>(&self, f: &mut fmt::Formatter<W>) -> fmt::Result {
        let Difference {
            call,
            part,
            place,
            expected,
            found,
        } = self;
        write!(
            f,
            "{call} {part} {place}: expected {expected:016x}, found {found:016x}"
        )
    }
}

// How far a run is: what was counted, and the query that is compared.
#[derive(Clone, Copy, Default)]
pub struct Tally {
    pub groups: u64,
    pub queries: u64,
    pub comparisons: u64,
    pub query: u64,
}

impl Tally {
    // Compares two words: one comparison more, or the difference.
    pub fn same(
        &mut self,
        call: Call,
        part: Part,
        place: usize,
        expected: u64,
        found: u64,
    ) -> Result<(), Difference>
        ensures answer { result ≡ compared call part place expected found }
        ensures counted { self.new ≡ cond (expected == found) (agreed self.old) self.old }
    {
        if expected != found {
            return Err(Difference {
                call,
                part,
                place,
                expected,
                found,
            });
        }
        self.comparisons = self.comparisons.wrapping_add(1);
        Ok(())
    }
}

// The float of a bit pattern: every NaN pattern is the NaN.
pub fn float_of(n: u64) -> f64
    ensures { result ≡ from_bits binary64 n }
{
    if 0x7FF0_0000_0000_0000 < n % 0x8000_0000_0000_0000 {
        f64::NAN
    } else {
        f64::from_bits(n)
    }
}

// The bit pattern of a float: one pattern for every NaN.
pub fn bits_of(x: f64) -> u64
    ensures { result ≡ to_bits binary64 x }
{
    if x.is_nan() {
        0x7FF8_0000_0000_0000
    } else {
        x.to_bits()
    }
}

// Eight bytes, the lowest first.
pub fn word_at(s: &[u8], at: usize) -> u64
    requires { at + 8 ≤ length s.now }
    ensures { result ≡ word_at s.now at }
{
    u64::from_le_bytes([
        s[at],
        s[at + 1],
        s[at + 2],
        s[at + 3],
        s[at + 4],
        s[at + 5],
        s[at + 6],
        s[at + 7],
    ])
}

// The words of the bytes, and the floats of the same bits.
pub fn decode(bytes: &[u8], words: &mut [u64], floats: &mut [f64], count: usize)
    requires count_in_bounds { (count * 8 ≤ length bytes.now) × (count ≤ 131072) }
    requires words_len { (length words.old ≡ 131072) × (length floats.old ≡ 131072) }
    ensures { (length words.new ≡ 131072) × (length floats.new ≡ 131072) }
{
    for i in 0..count {
        let x = word_at(bytes, i * 8);
        words[i] = x;
        floats[i] = float_of(x);
    }
}

// The number of an outcome, 0 where it is accepted.
pub fn number_of(outcome: Outcome) -> u64
    ensures { result ≡ number_of outcome }
{
    match outcome {
        Ok(()) => 0,
        Err(refusal) => refusal.check.number() as u64,
    }
}

// Its query, 0 where it is accepted.
pub fn query_of(outcome: Outcome) -> u64
    ensures { result ≡ query_of outcome }
{
    match outcome {
        Ok(()) => 0,
        Err(refusal) => refusal.query as u64,
    }
}

// Its axis, 0 where it is accepted.
pub fn axis_of(outcome: Outcome) -> u64
    ensures { result ≡ axis_of outcome }
{
    match outcome {
        Ok(()) => 0,
        Err(refusal) => refusal.axis as u64,
    }
}

// The corpus's number for a class.
pub fn class_of(class: Saturation) -> u64
    ensures { result ≡ class_of class }
{
    match class {
        Saturation::None => 0,
        Saturation::InsideLow => 1,
        Saturation::OutsideLow => 2,
        Saturation::InsideHigh => 3,
        Saturation::OutsideHigh => 4,
    }
}
