// f32: written by tools/width from crates/regular_with_grad/src/lib.rt; what has no float is called there.
// Value and gradient of a query on a regular grid in one call, with the number of four-term sums that it took.
#![tactic(auto)]

ghost use Rattle.std.specs.Prelude.{◌≡◌, length};
ghost use Rattle.std.specs.Float.{binary32};
ghost use Rattle.multicubic.specs.Answers.{Says, answer_outcome, value_in};
ghost use Rattle.grid.specs.Query.{outcome_of, at, value_answer, value_carried, gradient_answer, mark_answer};
ghost use Rattle.regular_query.specs.Grid.{axes_in, grid_of};
ghost use Rattle.regular_query.specs.Internal.{Ready};
ghost use Rattle.shared_sums.specs.Sums.{sums_answer};
ghost use Rattle.shared_sums.specs.Internal.{BothTo};

use multicubic::{Axis, EdgeMode, place_at};
use reduction::strides;
use regular_axis::{get_loc, hold};
use regular_f32::new;
use regular_query_f32::{counts_of, marks_of, replaced_at, row_at};
use shared_reduction::reduce_shared;
use with_grad::ValueAndGradient;
use with_grad_f32::refused;

// On a grid that is taken, in one pass over the axes: the coordinate as used in place of the one given, place, weigh twice, add to the index of the
// block's first value; then reduce.
fn both_at(
    axis_count: usize,
    axes: [Axis<f32>; 4],
    vals: &[f32],
    mode: EdgeMode,
    strides: [usize; 4],
    x: [f32; 4],
) -> ValueAndGradient<f32>
    requires { Ready axis_count axes (length vals.now) strides }
    ensures { BothTo binary32 axis_count (axes_in binary32 mode axis_count axes) vals.now (at x)
        result.answer result.gradient result.marks result.sums.taken }
{
    let straight = mode.linearize_extrapolation();
    let mut weights = [[0.0; 4]; 4];
    let mut derivatives = [[0.0; 4]; 4];
    let mut base: usize = 0;
    for axis in 0..axis_count {
        let given = x[axis];
        let own = axes[axis];
        let replaced = replaced_at(own, given, mode);
        let used = hold(own, given, replaced);
        let place = match place_at(0, axis, get_loc(own, used)) {
            Ok(place) => place,
            Err(by) => return refused(Err(by)),
        };
        weights[axis] = row_at(own, used, place, straight, false, replaced);
        derivatives[axis] = row_at(own, used, place, straight, true, replaced);
        base += place.origin * strides[axis];
    }
    let shared = reduce_shared(axis_count, vals, weights, derivatives, strides, base);
    let marks = marks_of(Ok(()), axis_count, axes, x);
    let gradient = shared.gradient;
    ValueAndGradient {
        answer: Ok(shared.value),
        marks,
        gradient,
        sums: shared.sums,
    }
}

// Value and gradient at a query with the number of sums taken, or the refusal with none. Of a number that is a NaN the contract says that it is one,
// and leaves its payload open.
pub fn interp_one_with_grad(
    axis_count: usize,
    axes: [Axis<f32>; 4],
    vals: &[f32],
    mode: EdgeMode,
    x: [f32; 4],
) -> ValueAndGradient<f32>
    ensures answer_value { result.answer ≡ value_answer binary32 (grid_of binary32 axis_count axes vals.now mode) (at x) }
    ensures gradient_value { result.gradient ≡ gradient_answer binary32 (grid_of binary32 axis_count axes vals.now mode) (at x) }
    ensures marks_value { result.marks ≡ mark_answer (grid_of binary32 axis_count axes vals.now mode) (at x) }
    ensures taken_value { result.sums.taken ≡ sums_answer (grid_of binary32 axis_count axes vals.now mode) (at x) }
    ensures says { Says (answer_outcome result.answer) (outcome_of (grid_of binary32 axis_count axes vals.now mode) (at x)) }
    ensures answer_value_2 { value_in result.answer ≡ value_carried binary32 (grid_of binary32 axis_count axes vals.now mode) (at x) }
{
    match new(axis_count, axes, vals) {
        Err(by) => refused(Err(by)),
        Ok(()) => both_at(
            axis_count,
            axes,
            vals,
            mode,
            strides(axis_count, counts_of(axes)),
            x,
        ),
    }
}
