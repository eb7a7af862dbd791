// The calls under test on a group's grid, of either kind, and the comparison of the parts of an answer.
#![tactic(auto)]

use harness_corpus::{Axes, Expected, ExpectedPlace, Group};
use harness_words::{Call, Difference, Part, Tally, axis_of, bits_of, number_of, query_of};
use multicubic::{Answer, GradientAnswer, Marked, Outcome, Place, PlaceAnswer, outcome_of};

pub fn call_new(g: Group, axes: &[f64], vals: &[f64]) -> Outcome {
    match g.axes {
        Axes::Regular(regular_axes) => regular::new(g.n, regular_axes, vals),
        Axes::Rectilinear(counts) => rectilinear::new(g.n, counts, axes, vals),
    }
}

pub fn call_get_loc(g: Group, axes: &[f64], vals: &[f64], x: [f64; 4]) -> Marked<PlaceAnswer> {
    match g.axes {
        Axes::Regular(regular_axes) => regular::get_loc(g.n, regular_axes, vals, g.mode, x),
        Axes::Rectilinear(counts) => rectilinear::get_loc(g.n, counts, axes, vals, g.mode, x),
    }
}

pub fn call_interp_one(g: Group, axes: &[f64], vals: &[f64], x: [f64; 4]) -> Marked<Answer<f64>> {
    match g.axes {
        Axes::Regular(regular_axes) => regular::interp_one(g.n, regular_axes, vals, g.mode, x),
        Axes::Rectilinear(counts) => rectilinear::interp_one(g.n, counts, axes, vals, g.mode, x),
    }
}

pub fn call_interp_one_grad(
    g: Group,
    axes: &[f64],
    vals: &[f64],
    x: [f64; 4],
) -> Marked<GradientAnswer<f64>> {
    match g.axes {
        Axes::Regular(regular_axes) => regular::interp_one_grad(g.n, regular_axes, vals, g.mode, x),
        Axes::Rectilinear(counts) => {
            rectilinear::interp_one_grad(g.n, counts, axes, vals, g.mode, x)
        }
    }
}

pub fn call_interp(
    g: Group,
    axes: &[f64],
    vals: &[f64],
    queries: &[f64],
    out: &mut [f64],
) -> Outcome {
    match g.axes {
        Axes::Regular(regular_axes) => {
            regular_batch::interp(g.n, regular_axes, vals, g.mode, queries, out)
        }
        Axes::Rectilinear(counts) => {
            rectilinear_batch::interp(g.n, counts, axes, vals, g.mode, queries, out)
        }
    }
}

pub fn call_interp_grad(
    g: Group,
    axes: &[f64],
    vals: &[f64],
    queries: &[f64],
    out: &mut [f64],
) -> Outcome {
    match g.axes {
        Axes::Regular(regular_axes) => {
            regular_batch::interp_grad(g.n, regular_axes, vals, g.mode, queries, out)
        }
        Axes::Rectilinear(counts) => {
            rectilinear_batch::interp_grad(g.n, counts, axes, vals, g.mode, queries, out)
        }
    }
}

pub fn same_outcome(
    t: &mut Tally,
    call: Call,
    expected: Outcome,
    found: Outcome,
) -> Result<(), Difference> {
    t.same(call, Part::Number, 0, number_of(expected), number_of(found))?;
    t.same(call, Part::Query, 0, query_of(expected), query_of(found))?;
    t.same(call, Part::Axis, 0, axis_of(expected), axis_of(found))
}

// Compares bits; a NaN matches any NaN.
pub fn same_float(
    t: &mut Tally,
    call: Call,
    part: Part,
    place: usize,
    expected: f64,
    found: f64,
) -> Result<(), Difference> {
    t.same(call, part, place, bits_of(expected), bits_of(found))
}

pub fn same_place(
    t: &mut Tally,
    axis: usize,
    expected: ExpectedPlace,
    found: Place,
) -> Result<(), Difference> {
    let found = ExpectedPlace::of(found);
    t.same(
        Call::GetLoc,
        Part::Origin,
        axis,
        expected.origin,
        found.origin,
    )?;
    t.same(Call::GetLoc, Part::Class, axis, expected.class, found.class)
}

pub fn same_places(t: &mut Tally, e: Expected<f64>, answer: PlaceAnswer) -> Result<(), Difference> {
    same_outcome(t, Call::GetLoc, outcome_of(e.value), answer.outcome)?;
    for axis in 0..4 {
        same_place(t, axis, e.places[axis], answer.places[axis])?;
    }
    Ok(())
}

// The value of a query, by the call that gave it.
pub fn same_value(
    t: &mut Tally,
    call: Call,
    expected: Answer<f64>,
    found: Answer<f64>,
) -> Result<(), Difference> {
    same_outcome(t, call, outcome_of(expected), outcome_of(found))?;
    if let (Ok(expected), Ok(found)) = (expected, found) {
        same_float(t, call, Part::Value, 0, expected, found)?;
    }
    Ok(())
}

// The components of its gradient, past the axis count and on refusal too.
pub fn same_components(
    t: &mut Tally,
    call: Call,
    expected: [f64; 4],
    found: [f64; 4],
) -> Result<(), Difference> {
    for axis in 0..4 {
        same_float(t, call, Part::Component, axis, expected[axis], found[axis])?;
    }
    Ok(())
}

pub fn same_gradient(
    t: &mut Tally,
    e: Expected<f64>,
    answer: GradientAnswer<f64>,
) -> Result<(), Difference> {
    same_outcome(t, Call::InterpOneGrad, outcome_of(e.value), answer.outcome)?;
    same_components(t, Call::InterpOneGrad, e.gradient, answer.gradient)
}

// The three single calls on a query; their marks are not compared.
pub fn same_single(
    t: &mut Tally,
    g: Group,
    axes: &[f64],
    vals: &[f64],
    x: [f64; 4],
    e: Expected<f64>,
) -> Result<(), Difference> {
    same_places(t, e, call_get_loc(g, axes, vals, x).answer)?;
    let value = call_interp_one(g, axes, vals, x).answer;
    same_value(t, Call::InterpOne, e.value, value)?;
    same_gradient(t, e, call_interp_one_grad(g, axes, vals, x).answer)
}
