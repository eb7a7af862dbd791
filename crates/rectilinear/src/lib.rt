// A rectilinear grid of src/multicubic/rectilinear.rs: `new`, the place, the value and the gradient of a query.
#![tactic(auto)]

ghost use Rattle.std.specs.Prelude.{◌≡◌, length};
ghost use Rattle.std.specs.Float.{binary64};
ghost use Rattle.multicubic.specs.Answers.{Says, answer_outcome, value_in};
ghost use Rattle.grid.specs.Query.{find, found_outcome, outcome_of, at, place_answer, value_answer, value_carried, gradient_answer, mark_answer};
ghost use Rattle.grid.specs.Internal.{Located, gradient_to};
ghost use Rattle.rectilinear_query.specs.Grid.{checks_of, axes_in, grid_of};
ghost use Rattle.rectilinear_query.specs.Internal.{Taken, Ready};

use grid::Quantity;
use multicubic::{
    Answer, EdgeMode, GradientAnswer, Marked, Outcome, PlaceAnswer, check_sizes, nowhere,
    outcome_of, place_at, unplaced,
};
use rectilinear_axis::hold;
use rectilinear_order::check_order;
use rectilinear_query::{answer_at, marks_of, replaced_at};
use reduction::strides;

// Takes a grid or turns it away: checks 1 to 6 and 10. The axes are joined one after the other.
pub fn new(axis_count: usize, counts: [usize; 4], axes: &[f64], vals: &[f64]) -> Outcome
    ensures value { result ≡ checks_of axis_count counts axes.now (length vals.now) }
    ensures says { Says result (checks_of axis_count counts axes.now (length vals.now)) }
{
    check_sizes(axis_count, counts, vals.len(), Some(axes.len()))?;
    check_order(axis_count, counts, axes)
}

// A query's place on every axis, or the refusal of the lowest axis that refuses it, 9 or 8.
fn locate(
    axis_count: usize,
    counts: [usize; 4],
    axes: &[f64],
    mode: EdgeMode,
    x: [f64; 4],
) -> PlaceAnswer
    requires { Taken axis_count counts axes.now }
    ensures { Located 0 (axes_in binary64 mode axis_count counts axes.now) (at x) result }
{
    let mut places = nowhere();
    let mut start: usize = 0;
    for i in 0..axis_count {
        let end = start + counts[i];
        let given = x[i];
        let entries = &axes[start..end];
        let replaced = replaced_at(entries, given, mode);
        let used = hold(entries, given, replaced);
        match place_at(0, i, rectilinear_axis::get_loc(entries, used)) {
            Ok(place) => places[i] = place,
            Err(refusal) => return unplaced(Err(refusal)),
        }
        start = end;
    }
    PlaceAnswer {
        outcome: Ok(()),
        places,
    }
}

// The place of a query on a grid: the grid's checks, then origin and class on every axis, or 9 or 8.
fn find_place(
    axis_count: usize,
    counts: [usize; 4],
    axes: &[f64],
    vals: &[f64],
    mode: EdgeMode,
    x: [f64; 4],
) -> PlaceAnswer
    ensures outcome_value { result.outcome ≡ outcome_of (grid_of binary64 axis_count counts axes.now vals.now mode) (at x) }
    ensures places_value { result.places ≡ place_answer (grid_of binary64 axis_count counts axes.now vals.now mode) (at x) }
    ensures says { Says result.outcome (outcome_of (grid_of binary64 axis_count counts axes.now vals.now mode) (at x)) }
{
    match new(axis_count, counts, axes, vals) {
        Err(refusal) => unplaced(Err(refusal)),
        Ok(()) => locate(axis_count, counts, axes, mode, x),
    }
}

// The value at a query, or the refusal.
fn find_value(
    axis_count: usize,
    counts: [usize; 4],
    axes: &[f64],
    vals: &[f64],
    mode: EdgeMode,
    x: [f64; 4],
) -> Answer<f64>
    ensures result_value { result ≡ value_answer binary64 (grid_of binary64 axis_count counts axes.now vals.now mode) (at x) }
    ensures says { Says (answer_outcome result) (outcome_of (grid_of binary64 axis_count counts axes.now vals.now mode) (at x)) }
    ensures result_value_2 { value_in result ≡ value_carried binary64 (grid_of binary64 axis_count counts axes.now vals.now mode) (at x) }
{
    new(axis_count, counts, axes, vals)?;
    answer_at(
        axis_count,
        counts,
        axes,
        vals,
        mode,
        strides(axis_count, counts),
        &x,
        1,
        0,
        Quantity::Value,
    )
}

// The gradient on a grid that is taken, component by component.
fn gradient_at(
    axis_count: usize,
    counts: [usize; 4],
    axes: &[f64],
    vals: &[f64],
    mode: EdgeMode,
    strides: [usize; 4],
    x: [f64; 4],
) -> GradientAnswer<f64>
    requires { Ready axis_count counts axes.now (length vals.now) strides }
    ensures outcome_value { result.outcome ≡ found_outcome 0 (find 0 (axes_in binary64 mode axis_count counts axes.now) (at x)) }
    ensures gradient_value { result.gradient ≡ gradient_to binary64 (axes_in binary64 mode axis_count counts axes.now) vals.now
        (find 0 (axes_in binary64 mode axis_count counts axes.now) (at x)) }
{
    let mut gradient = [0.0; 4];
    for d in 0..axis_count {
        let component = answer_at(
            axis_count,
            counts,
            axes,
            vals,
            mode,
            strides,
            &x,
            1,
            0,
            Quantity::Component(d),
        );
        match component {
            Ok(v) => gradient[d] = v,
            Err(refusal) => {
                return GradientAnswer {
                    outcome: Err(refusal),
                    gradient: [0.0; 4],
                };
            }
        }
    }
    GradientAnswer {
        outcome: Ok(()),
        gradient,
    }
}

// The gradient at a query, or the refusal.
fn find_gradient(
    axis_count: usize,
    counts: [usize; 4],
    axes: &[f64],
    vals: &[f64],
    mode: EdgeMode,
    x: [f64; 4],
) -> GradientAnswer<f64>
    ensures outcome_value { result.outcome ≡ outcome_of (grid_of binary64 axis_count counts axes.now vals.now mode) (at x) }
    ensures gradient_value { result.gradient ≡ gradient_answer binary64 (grid_of binary64 axis_count counts axes.now vals.now mode) (at x) }
    ensures says { Says result.outcome (outcome_of (grid_of binary64 axis_count counts axes.now vals.now mode) (at x)) }
{
    match new(axis_count, counts, axes, vals) {
        Err(refusal) => GradientAnswer {
            outcome: Err(refusal),
            gradient: [0.0; 4],
        },
        Ok(()) => gradient_at(
            axis_count,
            counts,
            axes,
            vals,
            mode,
            strides(axis_count, counts),
            x,
        ),
    }
}

// The place of a query: origin, class and marks on every axis, or the refusal.
pub fn get_loc(
    axis_count: usize,
    counts: [usize; 4],
    axes: &[f64],
    vals: &[f64],
    mode: EdgeMode,
    x: [f64; 4],
) -> Marked<PlaceAnswer>
    ensures outcome_value { result.answer.outcome ≡ outcome_of (grid_of binary64 axis_count counts axes.now vals.now mode) (at x) }
    ensures places_value { result.answer.places ≡ place_answer (grid_of binary64 axis_count counts axes.now vals.now mode) (at x) }
    ensures marks_value { result.marks ≡ mark_answer (grid_of binary64 axis_count counts axes.now vals.now mode) (at x) }
    ensures says { Says result.answer.outcome (outcome_of (grid_of binary64 axis_count counts axes.now vals.now mode) (at x)) }
{
    let answer = find_place(axis_count, counts, axes, vals, mode, x);
    let outcome = answer.outcome;
    let marks = marks_of(outcome, axis_count, counts, axes, x);
    Marked { answer, marks }
}

// The value at a query, or the refusal. Of a value that is a NaN the contract says that it is one, and leaves its payload open.
pub fn interp_one(
    axis_count: usize,
    counts: [usize; 4],
    axes: &[f64],
    vals: &[f64],
    mode: EdgeMode,
    x: [f64; 4],
) -> Marked<Answer<f64>>
    ensures answer_value { result.answer ≡ value_answer binary64 (grid_of binary64 axis_count counts axes.now vals.now mode) (at x) }
    ensures marks_value { result.marks ≡ mark_answer (grid_of binary64 axis_count counts axes.now vals.now mode) (at x) }
    ensures says { Says (answer_outcome result.answer) (outcome_of (grid_of binary64 axis_count counts axes.now vals.now mode) (at x)) }
    ensures answer_value_2 { value_in result.answer ≡ value_carried binary64 (grid_of binary64 axis_count counts axes.now vals.now mode) (at x) }
{
    let answer = find_value(axis_count, counts, axes, vals, mode, x);
    let marks = marks_of(outcome_of(answer), axis_count, counts, axes, x);
    Marked { answer, marks }
}

// The gradient at a query, or the refusal. Of a component that is a NaN the contract says that it is one, and leaves its payload open.
pub fn interp_one_grad(
    axis_count: usize,
    counts: [usize; 4],
    axes: &[f64],
    vals: &[f64],
    mode: EdgeMode,
    x: [f64; 4],
) -> Marked<GradientAnswer<f64>>
    ensures outcome_value { result.answer.outcome ≡ outcome_of (grid_of binary64 axis_count counts axes.now vals.now mode) (at x) }
    ensures gradient_value { result.answer.gradient ≡ gradient_answer binary64 (grid_of binary64 axis_count counts axes.now vals.now mode) (at x) }
    ensures marks_value { result.marks ≡ mark_answer (grid_of binary64 axis_count counts axes.now vals.now mode) (at x) }
    ensures says { Says result.answer.outcome (outcome_of (grid_of binary64 axis_count counts axes.now vals.now mode) (at x)) }
{
    let answer = find_gradient(axis_count, counts, axes, vals, mode, x);
    let outcome = answer.outcome;
    let marks = marks_of(outcome, axis_count, counts, axes, x);
    Marked { answer, marks }
}
