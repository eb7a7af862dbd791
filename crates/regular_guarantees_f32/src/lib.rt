// f32: written by tools/width from crates/regular_guarantees/src/lib.rt; what has no float is called there.
// Section 8 said of the calls on a regular grid: two tables on the same axes, each with its own values and setting, asked alone and in a batch.
#![tactic(auto)]

ghost use Rattle.std.specs.Prelude.{◌≡◌, take};
ghost use Rattle.std.specs.Float.{binary32};
ghost use Rattle.multicubic.specs.declared.EdgeMode.TheVariants.{Held};
ghost use Rattle.grid.specs.Query.{at, value_answer, mark_answer};
ghost use Rattle.grid.specs.Batch.{interp_outcome, interp_buffer};
ghost use Rattle.regular_query.specs.Grid.{grid_of, AllPremises};
ghost use Rattle.guarantees.specs.Marked.{UnmarkedAtNode};
ghost use Rattle.guarantees.specs.Statements.{AnswersOf, BuffersOf, HeldEdge, HeldInBatch, OwedAlone, OwedInBatch};

use guarantees::{TwoOutcomes, TwoTables};
use multicubic::{Answer, Axis, EdgeMode, Marked, Outcome};

// A query asked alone: `interp_one` and `interp_one_grad` on both tables.
pub fn alone(
    axis_count: usize,
    axes: [Axis<f32>; 4],
    x: [f32; 4],
    vals: &[f32],
    mode: EdgeMode,
    other_vals: &[f32],
    other_mode: EdgeMode,
) -> TwoTables<f32>
    ensures owed_alone { OwedAlone (AllPremises (take axis_count axes))
        (grid_of binary32 axis_count axes vals.now mode)
        (grid_of binary32 axis_count axes other_vals.now other_mode)
        (at x) result.value.answer result.other_value.answer
        result.gradient.answer.outcome result.other_gradient.answer.outcome result.gradient.answer.gradient result.other_gradient.answer.gradient }
    ensures answers_of { AnswersOf binary32 (grid_of binary32 axis_count axes vals.now mode) (at x)
        result.value.answer result.gradient.answer.outcome result.gradient.answer.gradient }
    ensures answers_of_2 { AnswersOf binary32 (grid_of binary32 axis_count axes other_vals.now other_mode) (at x)
        result.other_value.answer result.other_gradient.answer.outcome result.other_gradient.answer.gradient }
{
    let value = regular_f32::interp_one(axis_count, axes, vals, mode, x);
    let gradient = regular_f32::interp_one_grad(axis_count, axes, vals, mode, x);
    let other_value = regular_f32::interp_one(axis_count, axes, other_vals, other_mode, x);
    let other_gradient = regular_f32::interp_one_grad(axis_count, axes, other_vals, other_mode, x);
    TwoTables {
        value,
        gradient,
        other_value,
        other_gradient,
    }
}

// A batch: `interp` and `interp_grad` on both tables. Of the gradients the buffers are promised, and their outcomes are dropped.
pub fn in_batch(
    axis_count: usize,
    axes: [Axis<f32>; 4],
    queries: &[f32],
    vals: &[f32],
    mode: EdgeMode,
    out: &mut [f32],
    grad: &mut [f32],
    other_vals: &[f32],
    other_mode: EdgeMode,
    other_out: &mut [f32],
    other_grad: &mut [f32],
) -> TwoOutcomes
    ensures owed_in_batch { OwedInBatch binary32 (AllPremises (take axis_count axes))
        (grid_of binary32 axis_count axes vals.now mode)
        (grid_of binary32 axis_count axes other_vals.now other_mode)
        queries.now result.outcome result.other_outcome out.old out.new other_out.old other_out.new
        grad.old grad.new other_grad.old other_grad.new }
    ensures outcome_value { result.outcome ≡ interp_outcome binary32 (grid_of binary32 axis_count axes vals.now mode)
        queries.now out.old }
    ensures other_outcome_value { result.other_outcome ≡ interp_outcome binary32 (grid_of binary32 axis_count axes other_vals.now other_mode)
        queries.now other_out.old }
    ensures buffers_of { BuffersOf binary32 (grid_of binary32 axis_count axes vals.now mode)
        queries.now out.old out.new grad.old grad.new }
    ensures buffers_of_2 { BuffersOf binary32 (grid_of binary32 axis_count axes other_vals.now other_mode)
        queries.now other_out.old other_out.new other_grad.old other_grad.new }
{
    let outcome = regular_batch_f32::interp(axis_count, axes, vals, mode, queries, out);
    let _ = regular_batch_f32::interp_grad(axis_count, axes, vals, mode, queries, grad);
    let other_outcome = regular_batch_f32::interp(
        axis_count, axes, other_vals, other_mode, queries, other_out,
    );
    let _ = regular_batch_f32::interp_grad(
        axis_count, axes, other_vals, other_mode, queries, other_grad,
    );
    TwoOutcomes {
        outcome,
        other_outcome,
    }
}

// Clause 8.6: a query past the ends, or at nodes, of a grid that holds its edges.
pub fn held_edge(
    axis_count: usize,
    axes: [Axis<f32>; 4],
    vals: &[f32],
    x: [f32; 4],
) -> Marked<Answer<f32>>
    ensures held_edge { HeldEdge (AllPremises (take axis_count axes))
        (grid_of binary32 axis_count axes vals.now Held) (at x) result.answer }
    ensures answer_value { result.answer ≡ value_answer binary32 (grid_of binary32 axis_count axes vals.now Held) (at x) }
{
    regular_f32::interp_one(axis_count, axes, vals, EdgeMode::Held, x)
}

// The same in a batch.
pub fn held_in_batch(
    axis_count: usize,
    axes: [Axis<f32>; 4],
    queries: &[f32],
    vals: &[f32],
    out: &mut [f32],
) -> Outcome
    ensures held_in_batch { HeldInBatch (AllPremises (take axis_count axes))
        (grid_of binary32 axis_count axes vals.now Held) queries.now result out.old out.new }
    ensures value { result ≡ interp_outcome binary32 (grid_of binary32 axis_count axes vals.now Held)
        queries.now out.old }
    ensures out_after { out.new ≡ interp_buffer binary32 (grid_of binary32 axis_count axes vals.now Held)
        queries.now out.old }
{
    regular_batch_f32::interp(axis_count, axes, vals, EdgeMode::Held, queries, out)
}

// Clause 8.8: a query at a node has no mark on any axis.
pub fn unmarked_at_node(
    axis_count: usize,
    axes: [Axis<f32>; 4],
    vals: &[f32],
    mode: EdgeMode,
    x: [f32; 4],
) -> Marked<Answer<f32>>
    ensures unmarked_at_node { UnmarkedAtNode (AllPremises (take axis_count axes))
        (grid_of binary32 axis_count axes vals.now mode) (at x) result.marks }
    ensures marks_value { result.marks ≡ mark_answer (grid_of binary32 axis_count axes vals.now mode) (at x) }
{
    regular_f32::interp_one(axis_count, axes, vals, mode, x)
}
