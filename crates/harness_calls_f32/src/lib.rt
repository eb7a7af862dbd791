// f32: written by tools/width from crates/harness_calls/src/lib.rt; what has no float is called there.
// The calls under test on a group's grid, of either kind, and the comparison of the parts of an answer.
#![tactic(auto)]

use harness_calls::{same_outcome, same_place};
use harness_corpus::Expected;
use harness_corpus_f32::{Axes, Group};
use harness_words::{Call, Difference, Part, Tally};
use harness_words_f32::bits_of;
use multicubic::{Answer, GradientAnswer, Marked, Outcome, PlaceAnswer, outcome_of};

pub fn call_new(g: Group, axes: &[f32], vals: &[f32]) -> Outcome {
    match g.axes {
        Axes::Regular(regular_axes) => regular_f32::new(g.n, regular_axes, vals),
        Axes::Rectilinear(counts) => rectilinear_f32::new(g.n, counts, axes, vals),
    }
}

pub fn call_get_loc(g: Group, axes: &[f32], vals: &[f32], x: [f32; 4]) -> Marked<PlaceAnswer> {
    match g.axes {
        Axes::Regular(regular_axes) => regular_f32::get_loc(g.n, regular_axes, vals, g.mode, x),
        Axes::Rectilinear(counts) => rectilinear_f32::get_loc(g.n, counts, axes, vals, g.mode, x),
    }
}

pub fn call_interp_one(g: Group, axes: &[f32], vals: &[f32], x: [f32; 4]) -> Marked<Answer<f32>> {
    match g.axes {
        Axes::Regular(regular_axes) => regular_f32::interp_one(g.n, regular_axes, vals, g.mode, x),
        Axes::Rectilinear(counts) => rectilinear_f32::interp_one(
            g.n, counts, axes, vals, g.mode, x,
        ),
    }
}

pub fn call_interp_one_grad(
    g: Group,
    axes: &[f32],
    vals: &[f32],
    x: [f32; 4],
) -> Marked<GradientAnswer<f32>> {
    match g.axes {
        Axes::Regular(regular_axes) => regular_f32::interp_one_grad(
            g.n,
            regular_axes,
            vals,
            g.mode,
            x,
        ),
        Axes::Rectilinear(counts) => {
            rectilinear_f32::interp_one_grad(g.n, counts, axes, vals, g.mode, x)
        }
    }
}

pub fn call_interp(
    g: Group,
    axes: &[f32],
    vals: &[f32],
    queries: &[f32],
    out: &mut [f32],
) -> Outcome {
    match g.axes {
        Axes::Regular(regular_axes) => {
            regular_batch_f32::interp(g.n, regular_axes, vals, g.mode, queries, out)
        }
        Axes::Rectilinear(counts) => {
            rectilinear_batch_f32::interp(g.n, counts, axes, vals, g.mode, queries, out)
        }
    }
}

pub fn call_interp_grad(
    g: Group,
    axes: &[f32],
    vals: &[f32],
    queries: &[f32],
    out: &mut [f32],
) -> Outcome {
    match g.axes {
        Axes::Regular(regular_axes) => {
            regular_batch_f32::interp_grad(g.n, regular_axes, vals, g.mode, queries, out)
        }
        Axes::Rectilinear(counts) => {
            rectilinear_batch_f32::interp_grad(g.n, counts, axes, vals, g.mode, queries, out)
        }
    }
}

// Compares bits; a NaN matches any NaN.
pub fn same_float(
    t: &mut Tally,
    call: Call,
    part: Part,
    place: usize,
    expected: f32,
    found: f32,
) -> Result<(), Difference> {
    t.same(call, part, place, bits_of(expected), bits_of(found))
}

pub fn same_places(t: &mut Tally, e: Expected<f32>, answer: PlaceAnswer) -> Result<(), Difference> {
    same_outcome(t, Call::GetLoc, outcome_of(e.value), answer.outcome)?;
    for axis in 0..4 {
        same_place(t, axis, e.places[axis], answer.places[axis])?;
    }
    Ok(())
}

// The value of a query, by the call that gave it.
pub fn same_value(
    t: &mut Tally,
    call: Call,
    expected: Answer<f32>,
    found: Answer<f32>,
) -> Result<(), Difference> {
    same_outcome(t, call, outcome_of(expected), outcome_of(found))?;
    if let (Ok(expected), Ok(found)) = (expected, found) {
        same_float(t, call, Part::Value, 0, expected, found)?;
    }
    Ok(())
}

// The components of its gradient, past the axis count and on refusal too.
pub fn same_components(
    t: &mut Tally,
    call: Call,
    expected: [f32; 4],
    found: [f32; 4],
) -> Result<(), Difference> {
    for axis in 0..4 {
        same_float(t, call, Part::Component, axis, expected[axis], found[axis])?;
    }
    Ok(())
}

pub fn same_gradient(
    t: &mut Tally,
    e: Expected<f32>,
    answer: GradientAnswer<f32>,
) -> Result<(), Difference> {
    same_outcome(t, Call::InterpOneGrad, outcome_of(e.value), answer.outcome)?;
    same_components(t, Call::InterpOneGrad, e.gradient, answer.gradient)
}

// The three single calls on a query; their marks are not compared.
pub fn same_single(
    t: &mut Tally,
    g: Group,
    axes: &[f32],
    vals: &[f32],
    x: [f32; 4],
    e: Expected<f32>,
) -> Result<(), Difference> {
    same_places(t, e, call_get_loc(g, axes, vals, x).answer)?;
    let value = call_interp_one(g, axes, vals, x).answer;
    same_value(t, Call::InterpOne, e.value, value)?;
    same_gradient(t, e, call_interp_one_grad(g, axes, vals, x).answer)
}
