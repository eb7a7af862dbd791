// f32: written by tools/width from crates/harness_with_grad/src/lib.rt; what has no float is called there.
// The call for value and gradient together on a group's grid, of either kind, and the comparison of all single calls on a query.
#![tactic(auto)]

use harness_calls_f32::{same_components, same_value};
use harness_corpus::Expected;
use harness_corpus_f32::{Axes, Group};
use harness_with_grad::sums_of;
use harness_words::{Call, Difference, Part, Tally};
use with_grad::ValueAndGradient;

pub fn call_interp_one_with_grad(
    g: Group,
    axes: &[f32],
    vals: &[f32],
    x: [f32; 4],
) -> ValueAndGradient<f32> {
    match g.axes {
        Axes::Regular(regular_axes) => {
            regular_with_grad_f32::interp_one_with_grad(g.n, regular_axes, vals, g.mode, x)
        }
        Axes::Rectilinear(counts) => {
            rectilinear_with_grad_f32::interp_one_with_grad(g.n, counts, axes, vals, g.mode, x)
        }
    }
}

// Value, gradient and the number of sums; the marks are not compared.
pub fn same_with_grad(
    t: &mut Tally,
    e: Expected<f32>,
    sums: u64,
    found: ValueAndGradient<f32>,
) -> Result<(), Difference> {
    same_value(t, Call::InterpOneWithGrad, e.value, found.answer)?;
    same_components(t, Call::InterpOneWithGrad, e.gradient, found.gradient)?;
    let taken = counted_sums::number(found.sums) as u64;
    t.same(Call::InterpOneWithGrad, Part::Sums, 0, sums, taken)
}

// The four single calls on a query, of which a refused one takes no sum; their marks are not compared.
pub fn same_single(
    t: &mut Tally,
    g: Group,
    axes: &[f32],
    vals: &[f32],
    x: [f32; 4],
    e: Expected<f32>,
) -> Result<(), Difference> {
    harness_calls_f32::same_single(t, g, axes, vals, x, e)?;
    let sums = e.value.map_or(0, |_| sums_of(g.n));
    same_with_grad(t, e, sums, call_interp_one_with_grad(g, axes, vals, x))
}
