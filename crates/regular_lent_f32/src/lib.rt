// f32: written by tools/width from crates/regular_lent/src/lib.rt; what has no float is called there.
// The calls on a regular grid that is gathered from slices. Where a slice is too short they are refused, by that or by a check of the grid that
// comes before.
#![tactic(auto)]

ghost use Rattle.std.specs.Prelude.{◌≡◌, length};
ghost use Rattle.std.specs.Float.{binary32};
ghost use Rattle.slices.specs.Slices.{earlier};
ghost use Rattle.slices.specs.Lent.{lent};
ghost use Rattle.slices.specs.Internal.{PlacesOn, ValueOn, GradientOn, BothOn, InterpOn, InterpGradOn};
ghost use Rattle.regular_query.specs.Grid.{checks_of, grid_of};

use multicubic::{
    Answer, Axis, EdgeMode, GradientAnswer, Marked, Outcome, PlaceAnswer, answered, unmarked,
    unplaced,
};
use slices::earlier;
use with_grad::ValueAndGradient;
use with_grad_f32::refused;

// The refusal of the slices, or the grid's own.
pub fn new(slices: Outcome, axis_count: usize, axes: [Axis<f32>; 4], vals: &[f32]) -> Outcome
    ensures { result ≡ earlier slices (checks_of axis_count axes (length vals.now)) }
{
    earlier(slices, regular_f32::new(axis_count, axes, vals))
}

// The place of a query.
pub fn get_loc(
    slices: Outcome,
    axis_count: usize,
    axes: [Axis<f32>; 4],
    vals: &[f32],
    mode: EdgeMode,
    x: [f32; 4],
) -> Marked<PlaceAnswer>
    ensures { PlacesOn (lent slices (grid_of binary32 axis_count axes vals.now mode)) x result.answer.outcome result.answer.places result.marks }
{
    match slices {
        Err(_) => Marked {
            answer: unplaced(new(slices, axis_count, axes, vals)),
            marks: unmarked(),
        },
        Ok(()) => regular_f32::get_loc(axis_count, axes, vals, mode, x),
    }
}

// The value at a query.
pub fn interp_one(
    slices: Outcome,
    axis_count: usize,
    axes: [Axis<f32>; 4],
    vals: &[f32],
    mode: EdgeMode,
    x: [f32; 4],
) -> Marked<Answer<f32>>
    ensures { ValueOn binary32 (lent slices (grid_of binary32 axis_count axes vals.now mode)) x result.answer result.marks }
{
    match slices {
        Err(_) => Marked {
            answer: answered(new(slices, axis_count, axes, vals), 0.0),
            marks: unmarked(),
        },
        Ok(()) => regular_f32::interp_one(axis_count, axes, vals, mode, x),
    }
}

// The gradient at a query.
pub fn interp_one_grad(
    slices: Outcome,
    axis_count: usize,
    axes: [Axis<f32>; 4],
    vals: &[f32],
    mode: EdgeMode,
    x: [f32; 4],
) -> Marked<GradientAnswer<f32>>
    ensures { GradientOn binary32 (lent slices (grid_of binary32 axis_count axes vals.now mode)) x result.answer.outcome result.answer.gradient result.marks }
{
    match slices {
        Err(_) => Marked {
            answer: GradientAnswer {
                outcome: new(slices, axis_count, axes, vals),
                gradient: [0.0; 4],
            },
            marks: unmarked(),
        },
        Ok(()) => regular_f32::interp_one_grad(axis_count, axes, vals, mode, x),
    }
}

// Value and gradient at a query.
pub fn interp_one_with_grad(
    slices: Outcome,
    axis_count: usize,
    axes: [Axis<f32>; 4],
    vals: &[f32],
    mode: EdgeMode,
    x: [f32; 4],
) -> ValueAndGradient<f32>
    ensures { BothOn binary32 (lent slices (grid_of binary32 axis_count axes vals.now mode)) x
        result.answer result.gradient result.marks result.sums.taken }
{
    match slices {
        Err(_) => refused(new(slices, axis_count, axes, vals)),
        Ok(()) => { regular_with_grad_f32::interp_one_with_grad(axis_count, axes, vals, mode, x) }
    }
}

// The values of a batch.
pub fn interp(
    slices: Outcome,
    axis_count: usize,
    axes: [Axis<f32>; 4],
    vals: &[f32],
    mode: EdgeMode,
    queries: &[f32],
    out: &mut [f32],
) -> Outcome
    ensures { InterpOn binary32 (lent slices (grid_of binary32 axis_count axes vals.now mode))
        queries.now out.old result out.new }
{
    match slices {
        Err(_) => new(slices, axis_count, axes, vals),
        Ok(()) => regular_batch_f32::interp(axis_count, axes, vals, mode, queries, out),
    }
}

// The gradients of a batch.
pub fn interp_grad(
    slices: Outcome,
    axis_count: usize,
    axes: [Axis<f32>; 4],
    vals: &[f32],
    mode: EdgeMode,
    queries: &[f32],
    out: &mut [f32],
) -> Outcome
    ensures { InterpGradOn binary32 (lent slices (grid_of binary32 axis_count axes vals.now mode))
        queries.now out.old result out.new }
{
    match slices {
        Err(_) => new(slices, axis_count, axes, vals),
        Ok(()) => regular_batch_f32::interp_grad(axis_count, axes, vals, mode, queries, out),
    }
}
