// Batches on a regular grid: `interp` and `interp_grad` of src/multicubic/regular.rs.
#![tactic(auto)]

ghost use Rattle.std.specs.Prelude.{◌≡◌, ◌*◌, length};
ghost use Rattle.std.specs.Float.{binary64};
ghost use Rattle.multicubic.specs.Answers.{Says};
ghost use Rattle.grid.specs.Query.{counts_of as grid_counts};
ghost use Rattle.grid.specs.Batch.{found_at, outcome_from, run_from, interp_outcome, interp_buffer, grad_outcome, grad_buffer};
ghost use Rattle.grid.specs.Internal.{Asked, put_quantity, answered_before, component_in, FilledColumns};
ghost use Rattle.regular_query.specs.Grid.{axes_in, grid_of};
ghost use Rattle.regular_query.specs.Internal.{Ready};

use grid::{Quantity, check_gradients, check_values};
use multicubic::{Axis, EdgeMode, Outcome};
use reduction::strides;
use regular::new;
use regular_query::{answer_at, counts_of};

// What is asked of the queries, in order, up to the first that is refused.
fn fill(
    axis_count: usize,
    axes: [Axis<f64>; 4],
    vals: &[f64],
    mode: EdgeMode,
    strides: [usize; 4],
    queries: &[f64],
    quantity: Quantity,
    out: &mut [f64],
) -> Outcome
    requires ready { Ready axis_count axes (length vals.now) strides }
    requires queries_len { length queries.now ≡ axis_count * length out.old }
    requires asked { Asked axis_count quantity }
    ensures value { result ≡ outcome_from (found_at (axes_in binary64 mode axis_count axes) (length out.old) queries.now) 0
        (length out.old) }
    ensures out_after { out.new ≡ run_from
        (found_at (axes_in binary64 mode axis_count axes) (length out.old) queries.now)
        (put_quantity binary64 (grid_counts (axes_in binary64 mode axis_count axes)) vals.now quantity) 0
        (length out.old) out.old }
{
    let count = out.len();
    for i in 0..count {
        out[i] = answer_at(
            axis_count, axes, vals, mode, strides, queries, count, i, quantity,
        )?;
    }
    Ok(())
}

// The value of every query: entry i of `out` is query i's. An entry that keeps its contents is not stored to, so a NaN there keeps its
// payload too, of which the contract, with one NaN, says nothing. Operations round to nearest, with subnormals, and none is fused.
pub fn interp(
    axis_count: usize,
    axes: [Axis<f64>; 4],
    vals: &[f64],
    mode: EdgeMode,
    queries: &[f64],
    out: &mut [f64],
) -> Outcome
    ensures value { result ≡ interp_outcome binary64 (grid_of binary64 axis_count axes vals.now mode) queries.now out.old }
    ensures out_after { out.new ≡
        interp_buffer binary64 (grid_of binary64 axis_count axes vals.now mode) queries.now out.old }
    ensures says { Says result (interp_outcome binary64 (grid_of binary64 axis_count axes vals.now mode) queries.now out.old) }
{
    check_values(
        new(axis_count, axes, vals),
        axis_count,
        queries.len(),
        out.len(),
    )?;
    fill(
        axis_count,
        axes,
        vals,
        mode,
        strides(axis_count, counts_of(axes)),
        queries,
        Quantity::Value,
        out,
    )
}

// Every column by itself: column d starts at d times the count. Each meets the same outcome, so none but the last hands it on: all are filled up to
// the query that is refused.
fn fill_columns(
    axis_count: usize,
    axes: [Axis<f64>; 4],
    vals: &[f64],
    mode: EdgeMode,
    strides: [usize; 4],
    queries: &[f64],
    count: usize,
    out: &mut [f64],
) -> Outcome
    requires ready { Ready axis_count axes (length vals.now) strides }
    requires queries_len { (length queries.now ≡ axis_count * count) × (length out.old ≡ axis_count * count) }
    ensures value { result ≡ outcome_from (found_at (axes_in binary64 mode axis_count axes) count queries.now) 0 count }
    ensures filled_columns { FilledColumns
        (component_in binary64 (axes_in binary64 mode axis_count axes) vals.now count queries.now)
        axis_count count
        (answered_before
        (outcome_from (found_at (axes_in binary64 mode axis_count axes) count queries.now) 0 count) count)
        out.old out.new }
{
    let mut outcome = Ok(());
    for d in 0..axis_count {
        let at = d * count;
        let end = at + count;
        outcome = fill(
            axis_count,
            axes,
            vals,
            mode,
            strides,
            queries,
            Quantity::Component(d),
            &mut out[at..end],
        );
    }
    outcome
}

// The gradient of every query: its component d is at the query's place in column d of `out`. Untouched entries and rounding are as in `interp`.
pub fn interp_grad(
    axis_count: usize,
    axes: [Axis<f64>; 4],
    vals: &[f64],
    mode: EdgeMode,
    queries: &[f64],
    out: &mut [f64],
) -> Outcome
    ensures value { result ≡ grad_outcome binary64 (grid_of binary64 axis_count axes vals.now mode) queries.now out.old }
    ensures out_after { out.new ≡
        grad_buffer binary64 (grid_of binary64 axis_count axes vals.now mode) queries.now out.old }
    ensures says { Says result (grad_outcome binary64 (grid_of binary64 axis_count axes vals.now mode) queries.now out.old) }
{
    check_gradients(
        new(axis_count, axes, vals),
        axis_count,
        queries.len(),
        out.len(),
    )?;
    fill_columns(
        axis_count,
        axes,
        vals,
        mode,
        strides(axis_count, counts_of(axes)),
        queries,
        out.len() / axis_count,
        out,
    )
}
