// A regular grid of src/multicubic/regular.rs: `new`, the place, the value and the gradient of a query.
#![tactic(auto)]

ghost use Rattle.std.specs.Prelude.{◌≡◌, ◌≤◌, length, take};
ghost use Rattle.std.specs.Float.{binary64};
ghost use Rattle.multicubic.specs.declared.Check.TheVariants.{NotRising};
ghost use Rattle.multicubic.specs.Grid.{lowest};
ghost use Rattle.multicubic.specs.Answers.{Says, answer_outcome, value_in};
ghost use Rattle.grid.specs.Query.{find, found_outcome, outcome_of, at, place_answer, value_answer, value_carried, gradient_answer, mark_answer};
ghost use Rattle.grid.specs.Internal.{Located, gradient_to};
ghost use Rattle.regular_query.specs.Grid.{not_rising, checks_of, axes_in, grid_of};
ghost use Rattle.regular_query.specs.Internal.{Taken, Ready};

use grid::Quantity;
use multicubic::{
    Answer, Axis, Check, EdgeMode, GradientAnswer, Marked, Outcome, PlaceAnswer, check_sizes,
    nowhere, outcome_of, place_at, unplaced,
};
use reduction::strides;
use regular_axis::hold;
use regular_query::{answer_at, counts_of, marks_of, replaced_at};

// Check 5: the lowest axis whose step is not above 0.
fn first_not_rising(axis_count: usize, axes: [Axis<f64>; 4]) -> Outcome
    requires { axis_count ≤ 4 }
    ensures { result ≡ lowest NotRising not_rising 0 (take axis_count axes) }
{
    for i in 0..axis_count {
        if !(0.0 < axes[i].step) {
            return Err(Check::NotRising.at(0, i));
        }
    }
    Ok(())
}

// Takes a grid or turns it away: checks 1 to 5.
pub fn new(axis_count: usize, axes: [Axis<f64>; 4], vals: &[f64]) -> Outcome
    ensures value { result ≡ checks_of axis_count axes (length vals.now) }
    ensures says { Says result (checks_of axis_count axes (length vals.now)) }
{
    check_sizes(axis_count, counts_of(axes), vals.len(), None)?;
    first_not_rising(axis_count, axes)
}

// A query's place on every axis, or the refusal of the lowest axis that refuses it, 9 or 8.
fn locate(axis_count: usize, axes: [Axis<f64>; 4], mode: EdgeMode, x: [f64; 4]) -> PlaceAnswer
    requires { Taken axis_count axes }
    ensures { Located 0 (axes_in binary64 mode axis_count axes) (at x) result }
{
    let mut places = nowhere();
    for i in 0..axis_count {
        let given = x[i];
        let own = axes[i];
        let replaced = replaced_at(own, given, mode);
        let used = hold(own, given, replaced);
        match place_at(0, i, regular_axis::get_loc(own, used)) {
            Ok(place) => places[i] = place,
            Err(refusal) => return unplaced(Err(refusal)),
        }
    }
    PlaceAnswer {
        outcome: Ok(()),
        places,
    }
}

// The place of a query on a grid: the grid's checks, then origin and class on every axis, or 9 or 8.
fn find_place(
    axis_count: usize,
    axes: [Axis<f64>; 4],
    vals: &[f64],
    mode: EdgeMode,
    x: [f64; 4],
) -> PlaceAnswer
    ensures outcome_value { result.outcome ≡ outcome_of (grid_of binary64 axis_count axes vals.now mode) (at x) }
    ensures places_value { result.places ≡ place_answer (grid_of binary64 axis_count axes vals.now mode) (at x) }
    ensures says { Says result.outcome (outcome_of (grid_of binary64 axis_count axes vals.now mode) (at x)) }
{
    match new(axis_count, axes, vals) {
        Err(refusal) => unplaced(Err(refusal)),
        Ok(()) => locate(axis_count, axes, mode, x),
    }
}

// The value at a query, or the refusal.
fn find_value(
    axis_count: usize,
    axes: [Axis<f64>; 4],
    vals: &[f64],
    mode: EdgeMode,
    x: [f64; 4],
) -> Answer<f64>
    ensures result_value { result ≡ value_answer binary64 (grid_of binary64 axis_count axes vals.now mode) (at x) }
    ensures says { Says (answer_outcome result) (outcome_of (grid_of binary64 axis_count axes vals.now mode) (at x)) }
    ensures result_value_2 { value_in result ≡ value_carried binary64 (grid_of binary64 axis_count axes vals.now mode) (at x) }
{
    new(axis_count, axes, vals)?;
    answer_at(
        axis_count,
        axes,
        vals,
        mode,
        strides(axis_count, counts_of(axes)),
        &x,
        1,
        0,
        Quantity::Value,
    )
}

// The gradient on a grid that is taken, component by component.
fn gradient_at(
    axis_count: usize,
    axes: [Axis<f64>; 4],
    vals: &[f64],
    mode: EdgeMode,
    strides: [usize; 4],
    x: [f64; 4],
) -> GradientAnswer<f64>
    requires { Ready axis_count axes (length vals.now) strides }
    ensures outcome_value { result.outcome ≡ found_outcome 0 (find 0 (axes_in binary64 mode axis_count axes) (at x)) }
    ensures gradient_value { result.gradient ≡ gradient_to binary64 (axes_in binary64 mode axis_count axes) vals.now
        (find 0 (axes_in binary64 mode axis_count axes) (at x)) }
{
    let mut gradient = [0.0; 4];
    for d in 0..axis_count {
        let component = answer_at(
            axis_count,
            axes,
            vals,
            mode,
            strides,
            &x,
            1,
            0,
            Quantity::Component(d),
        );
        match component {
            Ok(v) => gradient[d] = v,
            Err(refusal) => {
                return GradientAnswer {
                    outcome: Err(refusal),
                    gradient: [0.0; 4],
                };
            }
        }
    }
    GradientAnswer {
        outcome: Ok(()),
        gradient,
    }
}

// The gradient at a query, or the refusal.
fn find_gradient(
    axis_count: usize,
    axes: [Axis<f64>; 4],
    vals: &[f64],
    mode: EdgeMode,
    x: [f64; 4],
) -> GradientAnswer<f64>
    ensures outcome_value { result.outcome ≡ outcome_of (grid_of binary64 axis_count axes vals.now mode) (at x) }
    ensures gradient_value { result.gradient ≡ gradient_answer binary64 (grid_of binary64 axis_count axes vals.now mode) (at x) }
    ensures says { Says result.outcome (outcome_of (grid_of binary64 axis_count axes vals.now mode) (at x)) }
{
    match new(axis_count, axes, vals) {
        Err(refusal) => GradientAnswer {
            outcome: Err(refusal),
            gradient: [0.0; 4],
        },
        Ok(()) => gradient_at(
            axis_count,
            axes,
            vals,
            mode,
            strides(axis_count, counts_of(axes)),
            x,
        ),
    }
}

// The place of a query: origin, class and marks on every axis, or the refusal.
pub fn get_loc(
    axis_count: usize,
    axes: [Axis<f64>; 4],
    vals: &[f64],
    mode: EdgeMode,
    x: [f64; 4],
) -> Marked<PlaceAnswer>
    ensures outcome_value { result.answer.outcome ≡ outcome_of (grid_of binary64 axis_count axes vals.now mode) (at x) }
    ensures places_value { result.answer.places ≡ place_answer (grid_of binary64 axis_count axes vals.now mode) (at x) }
    ensures marks_value { result.marks ≡ mark_answer (grid_of binary64 axis_count axes vals.now mode) (at x) }
    ensures says { Says result.answer.outcome (outcome_of (grid_of binary64 axis_count axes vals.now mode) (at x)) }
{
    let place = find_place(axis_count, axes, vals, mode, x);
    let marks = marks_of(place.outcome, axis_count, axes, x);
    Marked {
        answer: place,
        marks,
    }
}

// The value at a query, or the refusal. Of a value that is a NaN the contract says that it is one, and leaves its payload open.
pub fn interp_one(
    axis_count: usize,
    axes: [Axis<f64>; 4],
    vals: &[f64],
    mode: EdgeMode,
    x: [f64; 4],
) -> Marked<Answer<f64>>
    ensures answer_value { result.answer ≡ value_answer binary64 (grid_of binary64 axis_count axes vals.now mode) (at x) }
    ensures marks_value { result.marks ≡ mark_answer (grid_of binary64 axis_count axes vals.now mode) (at x) }
    ensures says { Says (answer_outcome result.answer) (outcome_of (grid_of binary64 axis_count axes vals.now mode) (at x)) }
    ensures answer_value_2 { value_in result.answer ≡ value_carried binary64 (grid_of binary64 axis_count axes vals.now mode) (at x) }
{
    let answer = find_value(axis_count, axes, vals, mode, x);
    let marks = marks_of(outcome_of(answer), axis_count, axes, x);
    Marked { answer, marks }
}

// The gradient at a query, or the refusal. Of a component that is a NaN the contract says that it is one, and leaves its payload open.
pub fn interp_one_grad(
    axis_count: usize,
    axes: [Axis<f64>; 4],
    vals: &[f64],
    mode: EdgeMode,
    x: [f64; 4],
) -> Marked<GradientAnswer<f64>>
    ensures outcome_value { result.answer.outcome ≡ outcome_of (grid_of binary64 axis_count axes vals.now mode) (at x) }
    ensures gradient_value { result.answer.gradient ≡ gradient_answer binary64 (grid_of binary64 axis_count axes vals.now mode) (at x) }
    ensures marks_value { result.marks ≡ mark_answer (grid_of binary64 axis_count axes vals.now mode) (at x) }
    ensures says { Says result.answer.outcome (outcome_of (grid_of binary64 axis_count axes vals.now mode) (at x)) }
{
    let gradient = find_gradient(axis_count, axes, vals, mode, x);
    let marks = marks_of(gradient.outcome, axis_count, axes, x);
    Marked {
        answer: gradient,
        marks,
    }
}
