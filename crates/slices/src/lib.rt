// What slices of any length add to the calls: arrays gathered from them, and the refusals of those that are too short. The setting comes as a
// number; one that names none is refused with them.
#![tactic(auto)]

ghost use Rattle.std.specs.Prelude.{◌≡◌, min, get_or};
ghost use Rattle.slices.specs.Axes.{axis_from, axes_from};
ghost use Rattle.slices.specs.Slices.{counts_from, query_from, mode_of, named_by, slices_of, query_slices_of, earlier};

use multicubic::{Axis, Check, EdgeMode, Outcome};

// Entry i; in place of one that is missing stands another.
pub fn entry_or<T: Copy>(xs: &[T], i: usize, missing: T) -> T
    ensures { result ≡ get_or xs.now i missing }
{
    xs.get(i).copied().unwrap_or(missing)
}

// Four counts; one that is missing is 1.
pub fn counts_from(counts: &[usize]) -> [usize; 4]
    ensures { result ≡ counts_from counts.now }
{
    [
        entry_or(counts, 0, 1),
        entry_or(counts, 1, 1),
        entry_or(counts, 2, 1),
        entry_or(counts, 3, 1),
    ]
}

// Four coordinates.
pub fn query_from(x: &[f64]) -> [f64; 4]
    ensures { result ≡ query_from x.now }
{
    [
        entry_or(x, 0, 0.0),
        entry_or(x, 1, 0.0),
        entry_or(x, 2, 0.0),
        entry_or(x, 3, 0.0),
    ]
}

fn axis_from(counts: &[usize], starts: &[f64], steps: &[f64], i: usize) -> Axis<f64>
    ensures { result ≡ axis_from counts.now starts.now steps.now i }
{
    Axis {
        start: entry_or(starts, i, 0.0),
        step: entry_or(steps, i, 0.0),
        count: entry_or(counts, i, 1),
    }
}

// Four regular axes.
pub fn axes_from(counts: &[usize], starts: &[f64], steps: &[f64]) -> [Axis<f64>; 4]
    ensures { result ≡ axes_from counts.now starts.now steps.now }
{
    [
        axis_from(counts, starts, steps, 0),
        axis_from(counts, starts, steps, 1),
        axis_from(counts, starts, steps, 2),
        axis_from(counts, starts, steps, 3),
    ]
}

// The setting of a number. A call with a number above 2 is refused, so it does not matter which setting that has.
pub fn mode_of(mode: u8) -> EdgeMode
    ensures { result ≡ mode_of mode }
{
    match mode {
        0 => EdgeMode::Cubic,
        1 => EdgeMode::Straight,
        _ => EdgeMode::Held,
    }
}

// A number above 2 names no setting, and is refused as a slice without entries is.
pub fn named(mode: u8, shortest: usize) -> usize
    ensures { result ≡ named_by mode shortest }
{
    if 2 < mode { 0 } else { shortest }
}

// The lesser of two lengths.
pub fn least(a: usize, b: usize) -> usize
    ensures { result ≡ min a b }
{
    a.min(b)
}

// The least of three lengths.
pub fn shortest_of(a: usize, b: usize, c: usize) -> usize
    ensures { result ≡ min a (min b c) }
{
    least(a, least(b, c))
}

// The slices of a call without a single query, by the shortest that is read and the length of `refusal`.
#[tactic(auto, unfolding(crate::specs::Slices::slices_of))]
pub fn check_slices(axis_count: usize, shortest: usize, refusal: usize) -> Outcome
    ensures { result ≡ slices_of axis_count shortest refusal }
{
    if shortest < axis_count {
        return Err(Check::WrongLength.at(0, 0));
    }
    if refusal < 2 {
        return Err(Check::BatchLength.at(0, 0));
    }
    Ok(())
}

// Those of a single query: of what is to be written `room` entries are lent, and `need` are needed; and a mark is written for each axis.
#[tactic(auto, unfolding(crate::specs::Slices::query_slices_of))]
pub fn check_query_slices(
    axis_count: usize,
    shortest: usize,
    query: usize,
    refusal: usize,
    room: usize,
    need: usize,
    marks: usize,
) -> Outcome
    ensures { result ≡ query_slices_of axis_count shortest query refusal room need marks }
{
    check_slices(axis_count, least(shortest, query), refusal)?;
    if room < need || marks < axis_count {
        return Err(Check::BatchLength.at(0, 0));
    }
    Ok(())
}

// Of the slices' refusal and the grid's own the one whose check comes first.
pub fn earlier(slices: Outcome, checked: Outcome) -> Outcome
    ensures { result ≡ earlier slices checked }
{
    let Err(short) = slices else { return checked };
    let Err(own) = checked else { return slices };
    if own.check.number() < 3 || short.check.number() == 7 {
        checked
    } else {
        slices
    }
}
