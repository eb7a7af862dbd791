// f32: written by tools/width from crates/harness_corpus/src/lib.rt; what has no float is called there.
// Reads the corpus's groups and expected answers. Its format is in docs/CORPUS.md.
#![tactic(auto)]

use harness_corpus::{Expected, ExpectedPlace, Fault, Reader, columns};
use harness_words_f32::float_of;
use multicubic::{Axis, Check, EdgeMode, Outcome, Place, Saturation};

// A grid's axes, or the counts of a rectilinear one, whose axes are joined in a slice. Over f32: of a generic one the derived clone is not proved.
#[derive(Clone, Copy)]
pub enum Axes {
    Regular([Axis<f32>; 4]),
    Rectilinear([usize; 4]),
}

// A grid, and for how many queries and entries its batches have buffers.
#[derive(Clone, Copy)]
pub struct Group {
    pub n: usize,
    pub mode: EdgeMode,
    pub axes: Axes,
    pub count: usize,
    pub entries: usize,
}

// A group of the corpus: its grid, what `new` gives of it, and its queries.
#[derive(Clone, Copy)]
pub struct Block<'a> {
    pub grid: Group,
    pub axes: &'a [f32],
    pub vals: &'a [f32],
    pub outcome: Outcome,
    // The axis that stands beside the number of the outcome, and beside 0 too.
    pub axis: u64,
    pub queries: &'a [f32],
}

fn float_at(reader: &mut Reader) -> Result<f32, Fault> {
    let word = reader.word()?;
    Ok(float_of(word))
}

// Floats for n axes, and +0 past them.
fn floats_at(reader: &mut Reader, n: usize) -> Result<[f32; 4], Fault> {
    let mut floats = [0.0; 4];
    for float in floats.iter_mut().take(n) {
        *float = float_at(reader)?;
    }
    Ok(floats)
}

// The next floats, of the words from the reader's on.
fn part_at<'a>(reader: &mut Reader, floats: &'a [f32], count: usize) -> Result<&'a [f32], Fault> {
    let rest = floats.get(reader.at..).ok_or(Fault::CutShort)?;
    let part = rest.get(..count).ok_or(Fault::CutShort)?;
    reader.at += count;
    Ok(part)
}

// The axes of a regular grid.
fn regular_at(reader: &mut Reader, counts: [usize; 4]) -> Result<Axes, Fault> {
    let starts = floats_at(reader, 4)?;
    let steps = floats_at(reader, 4)?;
    let axis = |d: usize| Axis {
        start: starts[d],
        step: steps[d],
        count: counts[d],
    };
    Ok(Axes::Regular([axis(0), axis(1), axis(2), axis(3)]))
}

// The next group. A refused grid has no queries.
pub fn group_at<'a>(reader: &mut Reader, floats: &'a [f32]) -> Result<Block<'a>, Fault> {
    reader.need(9)?;
    let rectilinear = reader.number(0, 1)? == 1;
    let mode = reader.mode()?;
    let n = reader.number(1, 4)?;
    let counts = reader.counts()?;
    let (grid_axes, axes) = if rectilinear {
        let joined = reader.number(0, 4096)?;
        (Axes::Rectilinear(counts), part_at(reader, floats, joined)?)
    } else {
        (regular_at(reader, counts)?, part_at(reader, floats, 0)?)
    };
    let values = reader.number(0, 4096)?;
    let vals = part_at(reader, floats, values)?;
    reader.need(3)?;
    let (outcome, axis) = reader.outcome()?;
    let most = if outcome.is_ok() { 64 } else { 0 };
    let count = reader.number(0, most)?;
    let entries = columns(n, count);
    let queries = part_at(reader, floats, entries)?;
    let grid = Group {
        n,
        mode,
        axes: grid_axes,
        count,
        entries,
    };
    Ok(Block {
        grid,
        axes,
        vals,
        outcome,
        axis,
        queries,
    })
}

// Origin 0, None: what there is past the axis count, and on refusal.
fn nowhere() -> [ExpectedPlace; 4] {
    let place = Place {
        origin: 0,
        class: Saturation::None,
    };
    [ExpectedPlace::of(place); 4]
}

// The answer that a refusal of a query is.
pub fn refusal(check: Check, axis: usize) -> Expected<f32> {
    Expected {
        value: Err(check.at(0, axis)),
        places: nowhere(),
        gradient: [0.0; 4],
    }
}

// The next expected answer, on n axes.
pub fn expected_at(reader: &mut Reader, n: usize) -> Result<Expected<f32>, Fault> {
    if reader.number(0, 1)? == 0 {
        let axis = reader.number(0, 3)?;
        return Ok(refusal(Check::NoPlace, axis));
    }
    let places = reader.places(n)?;
    let value = float_at(reader)?;
    let gradient = floats_at(reader, n)?;
    Ok(Expected {
        value: Ok(value),
        places,
        gradient,
    })
}

// The first floats; none where there are fewer.
pub fn part(floats: &[f32], count: usize) -> &[f32] {
    floats.get(..count).unwrap_or(&[])
}

// Query i of the joined columns; past the axis count the NaN, which must not matter.
pub fn query(queries: &[f32], count: usize, i: usize, n: usize) -> [f32; 4] {
    let mut x = [f32::NAN; 4];
    for d in 0..n.min(4) {
        let at = columns(d, count).wrapping_add(i);
        x[d] = queries.get(at).copied().unwrap_or(f32::NAN);
    }
    x
}
