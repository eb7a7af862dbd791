// The grids of src/multicubic as values that a caller keeps: each holds what `new` of its kind is given, the slices by reference.
// Every function hands the fields of its grid to the plain call, which looks at all of them anew: what a caller wrote into them is refused as there.
#![tactic(auto)]

ghost use Rattle.std.specs.Prelude.{◌≡◌, length};
ghost use Rattle.std.specs.Float.{binary64};
ghost use Rattle.multicubic.specs.Answers.{Says, answer_outcome, value_in};
ghost use Rattle.grid.specs.Query.{outcome_of, at, place_answer, value_answer, value_carried, gradient_answer, mark_answer};
ghost use Rattle.grid.specs.Batch.{interp_outcome, interp_buffer, grad_outcome, grad_buffer};
ghost use Rattle.regular_query.specs.Grid.{checks_of as regular_checks, grid_of as regular_of};
ghost use Rattle.rectilinear_query.specs.Grid.{checks_of as rectilinear_checks, grid_of as rectilinear_of};
ghost use Rattle.grids.specs.Kept.{kept_regular, kept_rectilinear};

use multicubic::{Answer, Axis, EdgeMode, GradientAnswer, Marked, Outcome, PlaceAnswer};

// A regular grid.
#[derive(Clone, Copy)]
pub struct MulticubicRegular<'a> {
    pub axis_count: usize,
    pub axes: [Axis<f64>; 4],
    pub vals: &'a [f64],
    pub mode: EdgeMode,
}

// A rectilinear grid; its axes are joined one after the other.
#[derive(Clone, Copy)]
pub struct MulticubicRectilinear<'a, 'b> {
    pub axis_count: usize,
    pub counts: [usize; 4],
    pub axes: &'a [f64],
    pub vals: &'b [f64],
    pub mode: EdgeMode,
}

// Keeps what it is given, and judges nothing.
pub fn keep_regular(
    axis_count: usize,
    axes: [Axis<f64>; 4],
    vals: &[f64],
    mode: EdgeMode,
) -> MulticubicRegular<'_>
    ensures { result ≡ record { axis_count = axis_count; axes = axes; vals = vals.entry; mode = mode } }
{
    MulticubicRegular {
        axis_count,
        axes,
        vals,
        mode,
    }
}

// The verdict of `regular::new` on the grid.
pub fn regular_new(g: MulticubicRegular<'_>) -> Outcome
    ensures value { result ≡ regular_checks g.entry.axis_count g.entry.axes (length g.entry.vals.now) }
    ensures says { Says result (regular_checks g.entry.axis_count g.entry.axes (length g.entry.vals.now)) }
{
    regular::new(g.axis_count, g.axes, g.vals)
}

// The place of a query on the grid, in its mode.
pub fn regular_get_loc(g: MulticubicRegular<'_>, x: [f64; 4]) -> Marked<PlaceAnswer>
    ensures outcome_value { result.answer.outcome ≡ outcome_of (kept_regular binary64 g.entry) (at x) }
    ensures places_value { result.answer.places ≡ place_answer (kept_regular binary64 g.entry) (at x) }
    ensures marks_value { result.marks ≡ mark_answer (kept_regular binary64 g.entry) (at x) }
    ensures says { Says result.answer.outcome (outcome_of (kept_regular binary64 g.entry) (at x)) }
{
    regular::get_loc(g.axis_count, g.axes, g.vals, g.mode, x)
}

// The value at a query, or the refusal. Of a value that is a NaN the contract says that it is one, and leaves its payload open.
pub fn regular_interp_one(g: MulticubicRegular<'_>, x: [f64; 4]) -> Marked<Answer<f64>>
    ensures answer_value { result.answer ≡ value_answer binary64 (kept_regular binary64 g.entry) (at x) }
    ensures marks_value { result.marks ≡ mark_answer (kept_regular binary64 g.entry) (at x) }
    ensures says { Says (answer_outcome result.answer) (outcome_of (kept_regular binary64 g.entry) (at x)) }
    ensures answer_value_2 { value_in result.answer ≡ value_carried binary64 (kept_regular binary64 g.entry) (at x) }
{
    regular::interp_one(g.axis_count, g.axes, g.vals, g.mode, x)
}

// The gradient at a query, or the refusal. Of a component that is a NaN the contract says that it is one, and leaves its payload open.
pub fn regular_interp_one_grad(g: MulticubicRegular<'_>, x: [f64; 4]) -> Marked<GradientAnswer<f64>>
    ensures outcome_value { result.answer.outcome ≡ outcome_of (kept_regular binary64 g.entry) (at x) }
    ensures gradient_value { result.answer.gradient ≡ gradient_answer binary64 (kept_regular binary64 g.entry) (at x) }
    ensures marks_value { result.marks ≡ mark_answer (kept_regular binary64 g.entry) (at x) }
    ensures says { Says result.answer.outcome (outcome_of (kept_regular binary64 g.entry) (at x)) }
{
    regular::interp_one_grad(g.axis_count, g.axes, g.vals, g.mode, x)
}

// The value of every query. Of a value that is a NaN the contract says that it is one, and leaves its payload open.
pub fn regular_interp(g: MulticubicRegular<'_>, queries: &[f64], out: &mut [f64]) -> Outcome
    ensures value { result ≡ interp_outcome binary64 (kept_regular binary64 g.entry) queries.now out.old }
    ensures out_after { out.new ≡ interp_buffer binary64 (kept_regular binary64 g.entry) queries.now out.old }
    ensures says { Says result (interp_outcome binary64 (kept_regular binary64 g.entry) queries.now out.old) }
{
    regular_batch::interp(g.axis_count, g.axes, g.vals, g.mode, queries, out)
}

// The gradient of every query. Of a component that is a NaN the contract says that it is one, and leaves its payload open.
pub fn regular_interp_grad(g: MulticubicRegular<'_>, queries: &[f64], out: &mut [f64]) -> Outcome
    ensures value { result ≡ grad_outcome binary64 (kept_regular binary64 g.entry) queries.now out.old }
    ensures out_after { out.new ≡ grad_buffer binary64 (kept_regular binary64 g.entry) queries.now out.old }
    ensures says { Says result (grad_outcome binary64 (kept_regular binary64 g.entry) queries.now out.old) }
{
    regular_batch::interp_grad(g.axis_count, g.axes, g.vals, g.mode, queries, out)
}

// Makes the grid and asks it: for callers that can have no local of the struct. Of a value that is a NaN the contract says that it is one, and
// leaves its payload open.
pub fn ask_regular(
    axis_count: usize,
    axes: [Axis<f64>; 4],
    vals: &[f64],
    mode: EdgeMode,
    x: [f64; 4],
) -> Marked<Answer<f64>>
    ensures answer_value { result.answer ≡ value_answer binary64 (regular_of binary64 axis_count axes vals.now mode) (at x) }
    ensures marks_value { result.marks ≡ mark_answer (regular_of binary64 axis_count axes vals.now mode) (at x) }
    ensures says { Says (answer_outcome result.answer) (outcome_of (regular_of binary64 axis_count axes vals.now mode) (at x)) }
    ensures answer_value_2 { value_in result.answer ≡ value_carried binary64 (regular_of binary64 axis_count axes vals.now mode) (at x) }
{
    regular_interp_one(keep_regular(axis_count, axes, vals, mode), x)
}

// Keeps what it is given, and judges nothing.
pub fn keep_rectilinear<'a, 'b>(
    axis_count: usize,
    counts: [usize; 4],
    axes: &'a [f64],
    vals: &'b [f64],
    mode: EdgeMode,
) -> MulticubicRectilinear<'a, 'b>
    ensures { result ≡ record { axis_count = axis_count; counts = counts; axes = axes.entry; vals = vals.entry; mode = mode } }
{
    MulticubicRectilinear {
        axis_count,
        counts,
        axes,
        vals,
        mode,
    }
}

// The verdict of `rectilinear::new` on the grid.
pub fn rectilinear_new(g: MulticubicRectilinear<'_, '_>) -> Outcome
    ensures value { result ≡ rectilinear_checks g.entry.axis_count g.entry.counts g.entry.axes.now (length g.entry.vals.now) }
    ensures says { Says result (rectilinear_checks g.entry.axis_count g.entry.counts g.entry.axes.now (length g.entry.vals.now)) }
{
    rectilinear::new(g.axis_count, g.counts, g.axes, g.vals)
}

// The place of a query on the grid, in its mode.
pub fn rectilinear_get_loc(g: MulticubicRectilinear<'_, '_>, x: [f64; 4]) -> Marked<PlaceAnswer>
    ensures outcome_value { result.answer.outcome ≡ outcome_of (kept_rectilinear binary64 g.entry) (at x) }
    ensures places_value { result.answer.places ≡ place_answer (kept_rectilinear binary64 g.entry) (at x) }
    ensures marks_value { result.marks ≡ mark_answer (kept_rectilinear binary64 g.entry) (at x) }
    ensures says { Says result.answer.outcome (outcome_of (kept_rectilinear binary64 g.entry) (at x)) }
{
    rectilinear::get_loc(g.axis_count, g.counts, g.axes, g.vals, g.mode, x)
}

// The value at a query, or the refusal. Of a value that is a NaN the contract says that it is one, and leaves its payload open.
pub fn rectilinear_interp_one(g: MulticubicRectilinear<'_, '_>, x: [f64; 4]) -> Marked<Answer<f64>>
    ensures answer_value { result.answer ≡ value_answer binary64 (kept_rectilinear binary64 g.entry) (at x) }
    ensures marks_value { result.marks ≡ mark_answer (kept_rectilinear binary64 g.entry) (at x) }
    ensures says { Says (answer_outcome result.answer) (outcome_of (kept_rectilinear binary64 g.entry) (at x)) }
    ensures answer_value_2 { value_in result.answer ≡ value_carried binary64 (kept_rectilinear binary64 g.entry) (at x) }
{
    rectilinear::interp_one(g.axis_count, g.counts, g.axes, g.vals, g.mode, x)
}

// The gradient at a query, or the refusal. Of a component that is a NaN the contract says that it is one, and leaves its payload open.
pub fn rectilinear_interp_one_grad(
    g: MulticubicRectilinear<'_, '_>,
    x: [f64; 4],
) -> Marked<GradientAnswer<f64>>
    ensures outcome_value { result.answer.outcome ≡ outcome_of (kept_rectilinear binary64 g.entry) (at x) }
    ensures gradient_value { result.answer.gradient ≡ gradient_answer binary64 (kept_rectilinear binary64 g.entry) (at x) }
    ensures marks_value { result.marks ≡ mark_answer (kept_rectilinear binary64 g.entry) (at x) }
    ensures says { Says result.answer.outcome (outcome_of (kept_rectilinear binary64 g.entry) (at x)) }
{
    rectilinear::interp_one_grad(g.axis_count, g.counts, g.axes, g.vals, g.mode, x)
}

// The value of every query. Of a value that is a NaN the contract says that it is one, and leaves its payload open.
pub fn rectilinear_interp(
    g: MulticubicRectilinear<'_, '_>,
    queries: &[f64],
    out: &mut [f64],
) -> Outcome
    ensures value { result ≡ interp_outcome binary64 (kept_rectilinear binary64 g.entry) queries.now out.old }
    ensures out_after { out.new ≡ interp_buffer binary64 (kept_rectilinear binary64 g.entry) queries.now out.old }
    ensures says { Says result (interp_outcome binary64 (kept_rectilinear binary64 g.entry) queries.now out.old) }
{
    rectilinear_batch::interp(g.axis_count, g.counts, g.axes, g.vals, g.mode, queries, out)
}

// The gradient of every query. Of a component that is a NaN the contract says that it is one, and leaves its payload open.
pub fn rectilinear_interp_grad(
    g: MulticubicRectilinear<'_, '_>,
    queries: &[f64],
    out: &mut [f64],
) -> Outcome
    ensures value { result ≡ grad_outcome binary64 (kept_rectilinear binary64 g.entry) queries.now out.old }
    ensures out_after { out.new ≡ grad_buffer binary64 (kept_rectilinear binary64 g.entry) queries.now out.old }
    ensures says { Says result (grad_outcome binary64 (kept_rectilinear binary64 g.entry) queries.now out.old) }
{
    rectilinear_batch::interp_grad(g.axis_count, g.counts, g.axes, g.vals, g.mode, queries, out)
}

// Makes the grid and asks it: for callers that can have no local of the struct. Of a value that is a NaN the contract says that it is one, and
// leaves its payload open.
pub fn ask_rectilinear(
    axis_count: usize,
    counts: [usize; 4],
    axes: &[f64],
    vals: &[f64],
    mode: EdgeMode,
    x: [f64; 4],
) -> Marked<Answer<f64>>
    ensures answer_value { result.answer ≡ value_answer binary64 (rectilinear_of binary64 axis_count counts axes.now vals.now mode) (at x) }
    ensures marks_value { result.marks ≡ mark_answer (rectilinear_of binary64 axis_count counts axes.now vals.now mode) (at x) }
    ensures says { Says (answer_outcome result.answer) (outcome_of (rectilinear_of binary64 axis_count counts axes.now vals.now mode) (at x)) }
    ensures answer_value_2 { value_in result.answer ≡ value_carried binary64 (rectilinear_of binary64 axis_count counts axes.now vals.now mode) (at x) }
{
    rectilinear_interp_one(keep_rectilinear(axis_count, counts, axes, vals, mode), x)
}
