// Reads the corpus's groups and expected answers. Its format is in docs/CORPUS.md.
#![tactic(auto)]

ghost use Rattle.std.specs.Prelude.{◌≡◌, ◌+◌, ◌<◌, ◌≤◌, IfOk, OnOk, OnErr, length, slice_index};

use harness_words::{Difference, class_of, float_of};
use multicubic::{Answer, Axis, Check, EdgeMode, Outcome, Place, Saturation};
use std::fmt;

// What is wrong with a corpus.
#[derive(Clone, Copy)]
pub enum Fault {
    CutShort,
    OutOfLimits,
    Trailing,
}

impl fmt::Display for Fault {
    fn fmt<W: fmt::Write>(&self, f: &mut fmt::Formatter<W>) -> fmt::Result {
        f.write_str(match self {
            Fault::CutShort => "cut short",
            Fault::OutOfLimits => "out of limits",
            Fault::Trailing => "words after the last group",
        })
    }
}

// What ends a run before all is compared.
#[derive(Clone, Copy)]
pub enum End {
    Differs(Difference),
    Faulty(Fault),
}

impl From<Difference> for End {
    fn from(difference: Difference) -> End {
        End::Differs(difference)
    }
}

impl From<Fault> for End {
    fn from(fault: Fault) -> End {
        End::Faulty(fault)
    }
}

// A grid's axes, or the counts of a rectilinear one, whose axes are joined in a slice. Over f64: of a generic one the derived clone is not proved.
#[derive(Clone, Copy)]
pub enum Axes {
    Regular([Axis<f64>; 4]),
    Rectilinear([usize; 4]),
}

// A grid, and for how many queries and entries its batches have buffers.
#[derive(Clone, Copy)]
pub struct Group {
    pub n: usize,
    pub mode: EdgeMode,
    pub axes: Axes,
    pub count: usize,
    pub entries: usize,
}

// A group of the corpus: its grid, what `new` gives of it, and its queries.
#[derive(Clone, Copy)]
pub struct Block<'a> {
    pub grid: Group,
    pub axes: &'a [f64],
    pub vals: &'a [f64],
    pub outcome: Outcome,
    // The axis that stands beside the number of the outcome, and beside 0 too.
    pub axis: u64,
    pub queries: &'a [f64],
}

// Where a query is to lie on an axis. A class is the corpus's number: one that names no class is told as a difference, and is no fault.
#[derive(Clone, Copy)]
pub struct ExpectedPlace {
    pub origin: u64,
    pub class: u64,
}

impl ExpectedPlace {
    pub fn of(place: Place) -> ExpectedPlace {
        ExpectedPlace {
            origin: place.origin as u64,
            class: class_of(place.class),
        }
    }
}

// A query's expected answer. The places and the gradient of a refusal are promised, so that they stand beside it.
#[derive(Clone, Copy)]
pub struct Expected<T> {
    pub value: Answer<T>,
    pub places: [ExpectedPlace; 4],
    pub gradient: [T; 4],
}

// The corpus's words, from the next one on.
#[derive(Clone, Copy)]
pub struct Reader<'a> {
    pub words: &'a [u64],
    pub at: usize,
}

impl Reader<'_> {
    // The next word, where there is one.
    pub fn word(&mut self) -> Result<u64, Fault>
        ensures word { IfOk result (λ w. w ≡ slice_index self.old.words.now self.old.at) }
        ensures ok { OnOk result ((self.old.at < length self.old.words.now) × (self.new.at ≡ self.old.at + 1)) }
        ensures err { OnErr result ((length self.old.words.now ≤ self.old.at) × (self.new.at ≡ self.old.at)) }
        ensures words { self.new.words ≡ self.old.words }
    {
        let word = *self.words.get(self.at).ok_or(Fault::CutShort)?;
        self.at += 1;
        Ok(word)
    }

    // There are so many words more.
    pub fn need(&self, count: usize) -> Result<(), Fault> {
        match self.words.len().checked_sub(self.at) {
            Some(left) if count <= left => Ok(()),
            _ => Err(Fault::CutShort),
        }
    }

    // The next word, from least to most.
    pub fn number(&mut self, least: usize, most: usize) -> Result<usize, Fault> {
        let x = self.word()? as usize;
        if x < least || most < x {
            return Err(Fault::OutOfLimits);
        }
        Ok(x)
    }

    pub fn counts(&mut self) -> Result<[usize; 4], Fault> {
        let mut counts = [0; 4];
        for count in counts.iter_mut() {
            *count = self.word()? as usize;
        }
        Ok(counts)
    }

    pub fn mode(&mut self) -> Result<EdgeMode, Fault> {
        match self.word()? {
            0 => Ok(EdgeMode::Cubic),
            1 => Ok(EdgeMode::Straight),
            _ => Err(Fault::OutOfLimits),
        }
    }

    // What `new` gives: a number of its checks, 0 for none.
    pub fn outcome(&mut self) -> Result<(Outcome, u64), Fault> {
        let number = self.word()?;
        let axis = self.word()?;
        let check = match number {
            0 => return Ok((Ok(()), axis)),
            1 => Check::AxisCount,
            2 => Check::TooLarge,
            3 => Check::WrongLength,
            4 => Check::TooFew,
            5 => Check::NotRising,
            6 => Check::Disordered,
            _ => return Err(Fault::OutOfLimits),
        };
        Ok((Err(check.at(0, axis as usize)), axis))
    }

    fn place(&mut self) -> Result<ExpectedPlace, Fault> {
        let word = self.word()?;
        Ok(ExpectedPlace {
            origin: word / 8,
            class: word % 8,
        })
    }

    // The places on n axes, and none past them.
    pub fn places(&mut self, n: usize) -> Result<[ExpectedPlace; 4], Fault> {
        let mut places = nowhere();
        for place in places.iter_mut().take(n) {
            *place = self.place()?;
        }
        Ok(places)
    }
}

fn float_at(reader: &mut Reader) -> Result<f64, Fault> {
    let word = reader.word()?;
    Ok(float_of(word))
}

// Floats for n axes, and +0 past them.
fn floats_at(reader: &mut Reader, n: usize) -> Result<[f64; 4], Fault> {
    let mut floats = [0.0; 4];
    for float in floats.iter_mut().take(n) {
        *float = float_at(reader)?;
    }
    Ok(floats)
}

// The next floats, of the words from the reader's on.
fn part_at<'a>(reader: &mut Reader, floats: &'a [f64], count: usize) -> Result<&'a [f64], Fault> {
    let rest = floats.get(reader.at..).ok_or(Fault::CutShort)?;
    let part = rest.get(..count).ok_or(Fault::CutShort)?;
    reader.at += count;
    Ok(part)
}

// Entries of n columns of `count`.
pub fn columns(n: usize, count: usize) -> usize {
    n.wrapping_mul(count)
}

// The axes of a regular grid.
fn regular_at(reader: &mut Reader, counts: [usize; 4]) -> Result<Axes, Fault> {
    let starts = floats_at(reader, 4)?;
    let steps = floats_at(reader, 4)?;
    let axis = |d: usize| Axis {
        start: starts[d],
        step: steps[d],
        count: counts[d],
    };
    Ok(Axes::Regular([axis(0), axis(1), axis(2), axis(3)]))
}

// The next group. A refused grid has no queries.
pub fn group_at<'a>(reader: &mut Reader, floats: &'a [f64]) -> Result<Block<'a>, Fault> {
    reader.need(9)?;
    let rectilinear = reader.number(0, 1)? == 1;
    let mode = reader.mode()?;
    let n = reader.number(1, 4)?;
    let counts = reader.counts()?;
    let (grid_axes, axes) = if rectilinear {
        let joined = reader.number(0, 4096)?;
        (Axes::Rectilinear(counts), part_at(reader, floats, joined)?)
    } else {
        (regular_at(reader, counts)?, part_at(reader, floats, 0)?)
    };
    let values = reader.number(0, 4096)?;
    let vals = part_at(reader, floats, values)?;
    reader.need(3)?;
    let (outcome, axis) = reader.outcome()?;
    let most = if outcome.is_ok() { 64 } else { 0 };
    let count = reader.number(0, most)?;
    let entries = columns(n, count);
    let queries = part_at(reader, floats, entries)?;
    let grid = Group {
        n,
        mode,
        axes: grid_axes,
        count,
        entries,
    };
    Ok(Block {
        grid,
        axes,
        vals,
        outcome,
        axis,
        queries,
    })
}

// Origin 0, None: what there is past the axis count, and on refusal.
fn nowhere() -> [ExpectedPlace; 4] {
    let place = Place {
        origin: 0,
        class: Saturation::None,
    };
    [ExpectedPlace::of(place); 4]
}

// The answer that a refusal of a query is.
pub fn refusal(check: Check, axis: usize) -> Expected<f64> {
    Expected {
        value: Err(check.at(0, axis)),
        places: nowhere(),
        gradient: [0.0; 4],
    }
}

// The next expected answer, on n axes.
pub fn expected_at(reader: &mut Reader, n: usize) -> Result<Expected<f64>, Fault> {
    if reader.number(0, 1)? == 0 {
        let axis = reader.number(0, 3)?;
        return Ok(refusal(Check::NoPlace, axis));
    }
    let places = reader.places(n)?;
    let value = float_at(reader)?;
    let gradient = floats_at(reader, n)?;
    Ok(Expected {
        value: Ok(value),
        places,
        gradient,
    })
}

// The first floats; none where there are fewer.
pub fn part(floats: &[f64], count: usize) -> &[f64] {
    floats.get(..count).unwrap_or(&[])
}

// Query i of the joined columns; past the axis count the NaN, which must not matter.
pub fn query(queries: &[f64], count: usize, i: usize, n: usize) -> [f64; 4] {
    let mut x = [f64::NAN; 4];
    for d in 0..n.min(4) {
        let at = columns(d, count).wrapping_add(i);
        x[d] = queries.get(at).copied().unwrap_or(f64::NAN);
    }
    x
}
