// The batches on a group's queries: what their buffers hold before, what they are to hold, and the comparison.
#![tactic(auto)]

use harness_calls::{call_interp, call_interp_grad, same_float, same_outcome};
use harness_corpus::{Group, columns};
use harness_words::{Call, Difference, Part, Tally, float_of};
use multicubic::Outcome;

// What an entry of a buffer holds before the call: every entry another number.
fn marker(i: usize) -> f64 {
    float_of((i as u64).wrapping_add(0x4008_0000_0000_0000))
}

pub fn marked() -> [f64; 256] {
    let mut out = [0.0; 256];
    for i in 0..256 {
        out[i] = marker(i);
    }
    out
}

// Puts x at a place of a buffer, where there is such a place.
pub fn put(out: &mut [f64; 256], at: usize, x: f64) {
    if at < 256 {
        out[at] = x;
    }
}

// The expected gradient of query i, in the columns of the batch.
pub fn put_gradient(out: &mut [f64; 256], n: usize, count: usize, i: usize, gradient: [f64; 4]) {
    for d in 0..n.min(4) {
        put(out, columns(d, count).wrapping_add(i), gradient[d]);
    }
}

// Compares the first entries of a buffer of columns: an entry's query is its place in its column.
fn same_entries(
    t: &mut Tally,
    call: Call,
    count: usize,
    expected: &[f64],
    found: &[f64],
) -> Result<(), Difference> {
    for (i, (expected, found)) in expected.iter().zip(found).enumerate() {
        if count != 0 {
            t.query = (i % count) as u64;
        }
        same_float(t, call, Part::Entry, i, *expected, *found)?;
    }
    Ok(())
}

fn run_interp(
    t: &mut Tally,
    g: Group,
    axes: &[f64],
    vals: &[f64],
    queries: &[f64],
    outcome: Outcome,
    expected: &[f64; 256],
) -> Result<(), Difference> {
    let count = g.count;
    if 256 < count {
        return Ok(());
    }
    let mut buffer = marked();
    let found = call_interp(g, axes, vals, queries, &mut buffer[..count]);
    same_outcome(t, Call::Interp, outcome, found)?;
    same_entries(t, Call::Interp, count, &expected[..count], &buffer[..count])
}

fn run_interp_grad(
    t: &mut Tally,
    g: Group,
    axes: &[f64],
    vals: &[f64],
    queries: &[f64],
    outcome: Outcome,
    expected: &[f64; 256],
) -> Result<(), Difference> {
    let entries = g.entries;
    if 256 < entries {
        return Ok(());
    }
    let mut buffer = marked();
    let found = call_interp_grad(g, axes, vals, queries, &mut buffer[..entries]);
    same_outcome(t, Call::InterpGrad, outcome, found)?;
    same_entries(
        t,
        Call::InterpGrad,
        g.count,
        &expected[..entries],
        &buffer[..entries],
    )
}

// Both batches over the same queries.
pub fn run_batches(
    t: &mut Tally,
    g: Group,
    axes: &[f64],
    vals: &[f64],
    queries: &[f64],
    outcome: Outcome,
    values: &[f64; 256],
    gradients: &[f64; 256],
) -> Result<(), Difference> {
    run_interp(t, g, axes, vals, queries, outcome, values)?;
    run_interp_grad(t, g, axes, vals, queries, outcome, gradients)
}
