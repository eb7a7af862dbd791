// Section 8 said of the call that gives value and gradient together on a regular grid: two tables on the same axes, each with its own values and
// setting. And clause 6.3: it answers as the two calls apart.
#![tactic(auto)]

ghost use Rattle.std.specs.Prelude.{take};
ghost use Rattle.std.specs.Float.{binary64};
ghost use Rattle.multicubic.specs.Answers.{answer_outcome};
ghost use Rattle.multicubic.specs.declared.EdgeMode.TheVariants.{Held};
ghost use Rattle.grid.specs.Query.{at};
ghost use Rattle.regular_query.specs.Grid.{grid_of, AllPremises};
ghost use Rattle.guarantees.specs.Marked.{UnmarkedAtNode};
ghost use Rattle.guarantees.specs.Statements.{HeldEdge, OwedAlone};
ghost use Rattle.with_grad_guarantees.specs.Together.{BlockSums, TogetherOf, AsApart};

use multicubic::{Axis, EdgeMode};
use with_grad::ValueAndGradient;
use with_grad_guarantees::{ApartAndTogether, TwoTogether};

// A query asked of both tables.
pub fn alone(
    axis_count: usize,
    axes: [Axis<f64>; 4],
    x: [f64; 4],
    vals: &[f64],
    mode: EdgeMode,
    other_vals: &[f64],
    other_mode: EdgeMode,
) -> TwoTogether<f64>
    ensures owed_alone { OwedAlone (AllPremises (take axis_count axes))
        (grid_of binary64 axis_count axes vals.now mode)
        (grid_of binary64 axis_count axes other_vals.now other_mode)
        (at x) result.own.answer result.other.answer
        (answer_outcome result.own.answer) (answer_outcome result.other.answer) result.own.gradient result.other.gradient }
    ensures block_sums { BlockSums
        (grid_of binary64 axis_count axes vals.now mode)
        (grid_of binary64 axis_count axes other_vals.now other_mode)
        (at x) result.own.sums.taken result.other.sums.taken }
    ensures together_of { TogetherOf binary64 (grid_of binary64 axis_count axes vals.now mode) (at x)
        result.own.answer result.own.gradient result.own.marks result.own.sums.taken }
    ensures together_of_2 { TogetherOf binary64 (grid_of binary64 axis_count axes other_vals.now other_mode) (at x)
        result.other.answer result.other.gradient result.other.marks result.other.sums.taken }
{
    let own = regular_with_grad::interp_one_with_grad(axis_count, axes, vals, mode, x);
    let other = regular_with_grad::interp_one_with_grad(
        axis_count, axes, other_vals, other_mode, x,
    );
    TwoTogether { own, other }
}

// Clause 8.6: a query past the ends, or at nodes, of a grid that holds its edges.
pub fn held_edge(
    axis_count: usize,
    axes: [Axis<f64>; 4],
    vals: &[f64],
    x: [f64; 4],
) -> ValueAndGradient<f64>
    ensures held_edge { HeldEdge (AllPremises (take axis_count axes))
        (grid_of binary64 axis_count axes vals.now Held) (at x) result.answer }
    ensures together_of { TogetherOf binary64 (grid_of binary64 axis_count axes vals.now Held) (at x)
        result.answer result.gradient result.marks result.sums.taken }
{
    regular_with_grad::interp_one_with_grad(axis_count, axes, vals, EdgeMode::Held, x)
}

// Clause 8.8: a query at a node has no mark on any axis.
pub fn unmarked_at_node(
    axis_count: usize,
    axes: [Axis<f64>; 4],
    vals: &[f64],
    mode: EdgeMode,
    x: [f64; 4],
) -> ValueAndGradient<f64>
    ensures unmarked_at_node { UnmarkedAtNode (AllPremises (take axis_count axes))
        (grid_of binary64 axis_count axes vals.now mode) (at x) result.marks }
    ensures together_of { TogetherOf binary64 (grid_of binary64 axis_count axes vals.now mode) (at x)
        result.answer result.gradient result.marks result.sums.taken }
{
    regular_with_grad::interp_one_with_grad(axis_count, axes, vals, mode, x)
}

// Clause 6.3: a query asked by the two calls apart, and together.
pub fn as_apart(
    axis_count: usize,
    axes: [Axis<f64>; 4],
    vals: &[f64],
    mode: EdgeMode,
    x: [f64; 4],
) -> ApartAndTogether<f64>
    ensures as_apart { AsApart axis_count result.both.answer result.value.answer result.gradient.answer.outcome
        result.both.gradient result.gradient.answer.gradient result.both.marks result.value.marks result.gradient.marks result.both.sums.taken }
    ensures together_of { TogetherOf binary64 (grid_of binary64 axis_count axes vals.now mode) (at x)
        result.both.answer result.both.gradient result.both.marks result.both.sums.taken }
{
    let value = regular::interp_one(axis_count, axes, vals, mode, x);
    let gradient = regular::interp_one_grad(axis_count, axes, vals, mode, x);
    let both = regular_with_grad::interp_one_with_grad(axis_count, axes, vals, mode, x);
    ApartAndTogether {
        value,
        gradient,
        both,
    }
}
