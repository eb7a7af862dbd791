// Section 8 said of the calls on a rectilinear grid: two tables on the same axes, each with its own values and setting, asked alone and in a batch.
// And clause 2.6: what a grid that is taken is relied on for.
#![tactic(auto)]

ghost use Rattle.std.specs.Prelude.{◌≡◌, Some, length, take};
ghost use Rattle.std.specs.Float.{binary64};
ghost use Rattle.multicubic.specs.Types.{accepted};
ghost use Rattle.multicubic.specs.declared.EdgeMode.TheVariants.{Held};
ghost use Rattle.multicubic.specs.Grid.{size_checks};
ghost use Rattle.grid.specs.Query.{at, value_answer, mark_answer};
ghost use Rattle.grid.specs.Batch.{interp_outcome, interp_buffer};
ghost use Rattle.rectilinear_order.specs.Grid.{axes_of, Rising, GapsAbove};
ghost use Rattle.rectilinear_query.specs.Grid.{checks_of, grid_of, AllPremises};
ghost use Rattle.guarantees.specs.Marked.{UnmarkedAtNode};
ghost use Rattle.guarantees.specs.Statements.{AnswersOf, BuffersOf, HeldEdge, HeldInBatch, OwedAlone, OwedInBatch};

use guarantees::{TwoOutcomes, TwoTables};
use multicubic::{Answer, EdgeMode, Marked, Outcome};

// A query asked alone: `interp_one` and `interp_one_grad` on both tables.
pub fn alone(
    axis_count: usize,
    counts: [usize; 4],
    axes: &[f64],
    x: [f64; 4],
    vals: &[f64],
    mode: EdgeMode,
    other_vals: &[f64],
    other_mode: EdgeMode,
) -> TwoTables<f64>
    ensures owed_alone { OwedAlone (AllPremises binary64 (axes_of (take axis_count counts) axes.now))
        (grid_of binary64 axis_count counts axes.now vals.now mode)
        (grid_of binary64 axis_count counts axes.now other_vals.now other_mode)
        (at x) result.value.answer result.other_value.answer
        result.gradient.answer.outcome result.other_gradient.answer.outcome result.gradient.answer.gradient result.other_gradient.answer.gradient }
    ensures answers_of { AnswersOf binary64 (grid_of binary64 axis_count counts axes.now vals.now mode) (at x)
        result.value.answer result.gradient.answer.outcome result.gradient.answer.gradient }
    ensures answers_of_2 { AnswersOf binary64 (grid_of binary64 axis_count counts axes.now other_vals.now other_mode) (at x)
        result.other_value.answer result.other_gradient.answer.outcome result.other_gradient.answer.gradient }
{
    let value = rectilinear::interp_one(axis_count, counts, axes, vals, mode, x);
    let gradient = rectilinear::interp_one_grad(axis_count, counts, axes, vals, mode, x);
    let other_value = rectilinear::interp_one(axis_count, counts, axes, other_vals, other_mode, x);
    let other_gradient = rectilinear::interp_one_grad(
        axis_count, counts, axes, other_vals, other_mode, x,
    );
    TwoTables {
        value,
        gradient,
        other_value,
        other_gradient,
    }
}

// A batch: `interp` and `interp_grad` on both tables. Of the gradients the buffers are promised, and their outcomes are dropped.
pub fn in_batch(
    axis_count: usize,
    counts: [usize; 4],
    axes: &[f64],
    queries: &[f64],
    vals: &[f64],
    mode: EdgeMode,
    out: &mut [f64],
    grad: &mut [f64],
    other_vals: &[f64],
    other_mode: EdgeMode,
    other_out: &mut [f64],
    other_grad: &mut [f64],
) -> TwoOutcomes
    ensures owed_in_batch { OwedInBatch binary64 (AllPremises binary64 (axes_of (take axis_count counts) axes.now))
        (grid_of binary64 axis_count counts axes.now vals.now mode)
        (grid_of binary64 axis_count counts axes.now other_vals.now other_mode)
        queries.now result.outcome result.other_outcome out.old out.new other_out.old other_out.new
        grad.old grad.new other_grad.old other_grad.new }
    ensures outcome_value { result.outcome ≡ interp_outcome binary64 (grid_of binary64 axis_count counts axes.now vals.now mode)
        queries.now out.old }
    ensures other_outcome_value { result.other_outcome ≡ interp_outcome binary64 (grid_of binary64 axis_count counts axes.now other_vals.now other_mode)
        queries.now other_out.old }
    ensures buffers_of { BuffersOf binary64 (grid_of binary64 axis_count counts axes.now vals.now mode)
        queries.now out.old out.new grad.old grad.new }
    ensures buffers_of_2 { BuffersOf binary64 (grid_of binary64 axis_count counts axes.now other_vals.now other_mode)
        queries.now other_out.old other_out.new other_grad.old other_grad.new }
{
    let outcome = rectilinear_batch::interp(axis_count, counts, axes, vals, mode, queries, out);
    let _ = rectilinear_batch::interp_grad(axis_count, counts, axes, vals, mode, queries, grad);
    let other_outcome = rectilinear_batch::interp(
        axis_count, counts, axes, other_vals, other_mode, queries, other_out,
    );
    let _ = rectilinear_batch::interp_grad(
        axis_count, counts, axes, other_vals, other_mode, queries, other_grad,
    );
    TwoOutcomes {
        outcome,
        other_outcome,
    }
}

// Clause 8.6: a query past the ends, or at nodes, of a grid that holds its edges.
pub fn held_edge(
    axis_count: usize,
    counts: [usize; 4],
    axes: &[f64],
    vals: &[f64],
    x: [f64; 4],
) -> Marked<Answer<f64>>
    ensures held_edge { HeldEdge (AllPremises binary64 (axes_of (take axis_count counts) axes.now))
        (grid_of binary64 axis_count counts axes.now vals.now Held) (at x) result.answer }
    ensures answer_value { result.answer ≡ value_answer binary64 (grid_of binary64 axis_count counts axes.now vals.now Held) (at x) }
{
    rectilinear::interp_one(axis_count, counts, axes, vals, EdgeMode::Held, x)
}

// The same in a batch.
pub fn held_in_batch(
    axis_count: usize,
    counts: [usize; 4],
    axes: &[f64],
    queries: &[f64],
    vals: &[f64],
    out: &mut [f64],
) -> Outcome
    ensures held_in_batch { HeldInBatch (AllPremises binary64 (axes_of (take axis_count counts) axes.now))
        (grid_of binary64 axis_count counts axes.now vals.now Held) queries.now result out.old out.new }
    ensures value { result ≡ interp_outcome binary64 (grid_of binary64 axis_count counts axes.now vals.now Held)
        queries.now out.old }
    ensures out_after { out.new ≡ interp_buffer binary64 (grid_of binary64 axis_count counts axes.now vals.now Held)
        queries.now out.old }
{
    rectilinear_batch::interp(axis_count, counts, axes, vals, EdgeMode::Held, queries, out)
}

// Clause 8.8: a query at a node has no mark on any axis.
pub fn unmarked_at_node(
    axis_count: usize,
    counts: [usize; 4],
    axes: &[f64],
    vals: &[f64],
    mode: EdgeMode,
    x: [f64; 4],
) -> Marked<Answer<f64>>
    ensures unmarked_at_node { UnmarkedAtNode (AllPremises binary64 (axes_of (take axis_count counts) axes.now))
        (grid_of binary64 axis_count counts axes.now vals.now mode) (at x) result.marks }
    ensures marks_value { result.marks ≡ mark_answer (grid_of binary64 axis_count counts axes.now vals.now mode) (at x) }
{
    rectilinear::interp_one(axis_count, counts, axes, vals, mode, x)
}

// Clause 2.6: where `new` takes a grid, every axis rises strictly, and no gap is zero; and a grid of the right sizes whose axes rise strictly is taken.
pub fn rises(axis_count: usize, counts: [usize; 4], axes: &[f64], vals: &[f64]) -> Outcome
    ensures value { result ≡ checks_of axis_count counts axes.now (length vals.now) }
    ensures rising { result ≡ accepted → Rising (axes_of (take axis_count counts) axes.now) }
    ensures gaps_above { result ≡ accepted → GapsAbove binary64 (axes_of (take axis_count counts) axes.now) }
    ensures value_2 { size_checks axis_count counts (length vals.now) (Some (length axes.now)) ≡ accepted
        → Rising (axes_of (take axis_count counts) axes.now) → result ≡ accepted }
{
    rectilinear::new(axis_count, counts, axes, vals)
}
