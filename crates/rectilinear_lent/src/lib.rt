// The calls on a rectilinear grid that is gathered from slices. Where a slice is too short they are refused, by that or by a check of the grid that
// comes before.
#![tactic(auto)]

ghost use Rattle.std.specs.Prelude.{◌≡◌, length};
ghost use Rattle.std.specs.Float.{binary64};
ghost use Rattle.slices.specs.Slices.{earlier};
ghost use Rattle.slices.specs.Lent.{lent};
ghost use Rattle.slices.specs.Internal.{PlacesOn, ValueOn, GradientOn, BothOn, InterpOn, InterpGradOn};
ghost use Rattle.rectilinear_query.specs.Grid.{checks_of, grid_of};

use multicubic::{
    Answer, EdgeMode, GradientAnswer, Marked, Outcome, PlaceAnswer, answered, unmarked, unplaced,
};
use slices::earlier;
use with_grad::{ValueAndGradient, refused};

// The refusal of the slices, or the grid's own.
pub fn new(
    slices: Outcome,
    axis_count: usize,
    counts: [usize; 4],
    axes: &[f64],
    vals: &[f64],
) -> Outcome
    ensures { result ≡ earlier slices (checks_of axis_count counts axes.now (length vals.now)) }
{
    earlier(slices, rectilinear::new(axis_count, counts, axes, vals))
}

// The place of a query.
pub fn get_loc(
    slices: Outcome,
    axis_count: usize,
    counts: [usize; 4],
    axes: &[f64],
    vals: &[f64],
    mode: EdgeMode,
    x: [f64; 4],
) -> Marked<PlaceAnswer>
    ensures { PlacesOn (lent slices (grid_of binary64 axis_count counts axes.now vals.now mode)) x result.answer.outcome result.answer.places result.marks }
{
    match slices {
        Err(_) => Marked {
            answer: unplaced(new(slices, axis_count, counts, axes, vals)),
            marks: unmarked(),
        },
        Ok(()) => rectilinear::get_loc(axis_count, counts, axes, vals, mode, x),
    }
}

// The value at a query.
pub fn interp_one(
    slices: Outcome,
    axis_count: usize,
    counts: [usize; 4],
    axes: &[f64],
    vals: &[f64],
    mode: EdgeMode,
    x: [f64; 4],
) -> Marked<Answer<f64>>
    ensures { ValueOn binary64 (lent slices (grid_of binary64 axis_count counts axes.now vals.now mode)) x result.answer result.marks }
{
    match slices {
        Err(_) => Marked {
            answer: answered(new(slices, axis_count, counts, axes, vals), 0.0),
            marks: unmarked(),
        },
        Ok(()) => rectilinear::interp_one(axis_count, counts, axes, vals, mode, x),
    }
}

// The gradient at a query.
pub fn interp_one_grad(
    slices: Outcome,
    axis_count: usize,
    counts: [usize; 4],
    axes: &[f64],
    vals: &[f64],
    mode: EdgeMode,
    x: [f64; 4],
) -> Marked<GradientAnswer<f64>>
    ensures { GradientOn binary64 (lent slices (grid_of binary64 axis_count counts axes.now vals.now mode)) x
        result.answer.outcome result.answer.gradient result.marks }
{
    match slices {
        Err(_) => Marked {
            answer: GradientAnswer {
                outcome: new(slices, axis_count, counts, axes, vals),
                gradient: [0.0; 4],
            },
            marks: unmarked(),
        },
        Ok(()) => rectilinear::interp_one_grad(axis_count, counts, axes, vals, mode, x),
    }
}

// Value and gradient at a query.
pub fn interp_one_with_grad(
    slices: Outcome,
    axis_count: usize,
    counts: [usize; 4],
    axes: &[f64],
    vals: &[f64],
    mode: EdgeMode,
    x: [f64; 4],
) -> ValueAndGradient<f64>
    ensures { BothOn binary64 (lent slices (grid_of binary64 axis_count counts axes.now vals.now mode)) x
        result.answer result.gradient result.marks result.sums.taken }
{
    match slices {
        Err(_) => refused(new(slices, axis_count, counts, axes, vals)),
        Ok(()) => {
            rectilinear_with_grad::interp_one_with_grad(axis_count, counts, axes, vals, mode, x)
        }
    }
}

// The values of a batch.
pub fn interp(
    slices: Outcome,
    axis_count: usize,
    counts: [usize; 4],
    axes: &[f64],
    vals: &[f64],
    mode: EdgeMode,
    queries: &[f64],
    out: &mut [f64],
) -> Outcome
    ensures { InterpOn binary64 (lent slices (grid_of binary64 axis_count counts axes.now vals.now mode))
        queries.now out.old result out.new }
{
    match slices {
        Err(_) => new(slices, axis_count, counts, axes, vals),
        Ok(()) => { rectilinear_batch::interp(axis_count, counts, axes, vals, mode, queries, out) }
    }
}

// The gradients of a batch.
pub fn interp_grad(
    slices: Outcome,
    axis_count: usize,
    counts: [usize; 4],
    axes: &[f64],
    vals: &[f64],
    mode: EdgeMode,
    queries: &[f64],
    out: &mut [f64],
) -> Outcome
    ensures { InterpGradOn binary64 (lent slices (grid_of binary64 axis_count counts axes.now vals.now mode))
        queries.now out.old result out.new }
{
    match slices {
        Err(_) => new(slices, axis_count, counts, axes, vals),
        Ok(()) => {
            rectilinear_batch::interp_grad(axis_count, counts, axes, vals, mode, queries, out)
        }
    }
}
