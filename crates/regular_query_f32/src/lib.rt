// f32: written by tools/width from crates/regular_query/src/lib.rt; what has no float is called there.
// A query on a regular grid that is taken: what single answers and batches ask for each of their queries.
#![tactic(auto)]

ghost use Rattle.std.specs.Prelude.{◌≡◌, Bool, ◌*◌, ◌≤◌, ◌<◌, length};
ghost use Rattle.std.specs.Float.{binary32};
ghost use Rattle.multicubic.specs.declared.EdgeMode.{EdgeMode};
ghost use Rattle.multicubic.specs.Types.{accepted};
ghost use Rattle.grid.specs.Query.{at, marks_beside};
ghost use Rattle.grid.specs.Batch.{found_at};
ghost use Rattle.grid.specs.Internal.{replaced_in, row_by, Asked, answer_to};
ghost use Rattle.regular_query.specs.Grid.{counts_of, grid_axis, axes_in};
ghost use Rattle.regular_query.specs.Internal.{Taken, Ready};

use grid::{Quantity, is_component};
use multicubic::{Answer, Axis, EdgeMode, Marks, Outcome, Place, place_at, unmarked};
use reduction::{reduce1, reduce2, reduce3, reduce4};
use regular_axis::{derivatives_at, get_loc, hold, marks_at, weights_at};

pub fn counts_of(axes: [Axis<f32>; 4]) -> [usize; 4]
    ensures { result ≡ counts_of axes }
{
    [axes[0].count, axes[1].count, axes[2].count, axes[3].count]
}

// At which ends of an axis the setting replaces a coordinate as given.
pub fn replaced_at(axis: Axis<f32>, given: f32, mode: EdgeMode) -> Marks
    requires { (4 ≤ axis.count) × (axis.count ≤ 4096) }
    ensures { (straight : Bool) → result ≡ replaced_in mode (grid_axis binary32 straight axis) given }
{
    match mode {
        EdgeMode::Cubic | EdgeMode::Straight => Marks {
            below: false,
            above: false,
        },
        EdgeMode::Held => marks_at(axis, given),
    }
}

// The weights of x's block at its place, or its derivative weights: four +0 where x stands in place of another coordinate.
pub fn row_at(
    axis: Axis<f32>,
    x: f32,
    place: Place,
    linearize_extrapolation: bool,
    derivative: bool,
    replaced: Marks,
) -> [f32; 4]
    requires { place.origin < 4096 }
    ensures { result ≡ row_by replaced (grid_axis binary32 linearize_extrapolation axis) x place derivative }
{
    if derivative {
        if replaced.is_past() {
            return [0.0; 4];
        }
        return derivatives_at(axis, x, place, linearize_extrapolation);
    }
    weights_at(axis, x, place, linearize_extrapolation)
}

// Past which ends of each of its axes a query lies.
fn marks_along(axis_count: usize, axes: [Axis<f32>; 4], x: [f32; 4]) -> [Marks; 4]
    requires { Taken axis_count axes }
    ensures { (mode : EdgeMode) → result ≡ marks_beside accepted (axes_in binary32 mode axis_count axes) (at x) }
{
    let mut marks = unmarked();
    for i in 0..axis_count {
        marks[i] = marks_at(axes[i], x[i]);
    }
    marks
}

// The marks beside a single query's outcome: none on refusal.
pub fn marks_of(
    outcome: Outcome,
    axis_count: usize,
    axes: [Axis<f32>; 4],
    x: [f32; 4],
) -> [Marks; 4]
    requires { outcome ≡ accepted → Taken axis_count axes }
    ensures { (mode : EdgeMode) → result ≡ marks_beside outcome (axes_in binary32 mode axis_count axes) (at x) }
{
    match outcome {
        Err(_) => unmarked(),
        Ok(()) => marks_along(axis_count, axes, x),
    }
}

// What is asked of query i of a batch, in one pass over the axes: the coordinate as used in place of the one given, place, weigh, add to the
// index of the block's first value; then reduce. The dispatch stands here, and not behind a call, so that the rows stay where they are.
pub fn answer_at(
    axis_count: usize,
    axes: [Axis<f32>; 4],
    vals: &[f32],
    mode: EdgeMode,
    strides: [usize; 4],
    queries: &[f32],
    count: usize,
    i: usize,
    quantity: Quantity,
) -> Answer<f32>
    requires ready { Ready axis_count axes (length vals.now) strides }
    requires i_lt_count { (i < count) × (axis_count * count ≤ length queries.now) }
    requires asked { Asked axis_count quantity }
    ensures { result ≡ answer_to binary32 (axes_in binary32 mode axis_count axes) vals.now quantity i
        (found_at (axes_in binary32 mode axis_count axes) count queries.now i) }
{
    let straight = mode.linearize_extrapolation();
    let mut rows = [[0.0; 4]; 4];
    let mut base: usize = 0;
    let mut at = i;
    for axis in 0..axis_count {
        let given = queries[at];
        let own = axes[axis];
        let replaced = replaced_at(own, given, mode);
        let used = hold(own, given, replaced);
        let place = place_at(i, axis, get_loc(own, used))?;
        let derivative = is_component(quantity, axis);
        rows[axis] = row_at(own, used, place, straight, derivative, replaced);
        base += place.origin * strides[axis];
        at += count;
    }
    Ok(match axis_count {
        1 => reduce1(vals, rows, strides, base),
        2 => reduce2(vals, rows, strides, base),
        3 => reduce3(vals, rows, strides, base),
        _ => reduce4(vals, rows, strides, base),
    })
}
