// Walks the corpus: each group, each of its queries, then its batches.
#![tactic(auto)]

ghost use Rattle.std.specs.Prelude.{◌≡◌, min};

use harness_batches::{marked, put, put_gradient, run_batches};
use harness_calls::{call_new, same_single};
use harness_corpus::{Block, End, Fault, Reader, expected_at, group_at, query, refusal};
use harness_words::{Call, Part, Tally, axis_of, number_of, query_of};
use multicubic::{Outcome, Refusal};

// One query: compares the single calls, and puts what the batches are to hold into both buffers, up to the query that stops them.
fn run_query(
    t: &mut Tally,
    reader: &mut Reader,
    b: Block,
    i: usize,
    batch: Outcome,
    values: &mut [f64; 256],
    gradients: &mut [f64; 256],
) -> Result<Outcome, End> {
    let g = b.grid;
    let e = expected_at(reader, g.n)?;
    t.query = i as u64;
    t.queries = t.queries.wrapping_add(1);
    let x = query(b.queries, g.count, i, g.n);
    same_single(t, g, b.axes, b.vals, x, e)?;
    if batch.is_err() {
        return Ok(batch);
    }
    match e.value {
        Ok(value) => {
            put(values, i, value);
            put_gradient(gradients, g.n, g.count, i, e.gradient);
            Ok(batch)
        }
        Err(Refusal { check, axis, .. }) => Ok(Err(check.at(i, axis))),
    }
}

// What `new` gives of the grid. Where it refuses, every single call gives the same refusal.
fn run_new(t: &mut Tally, b: Block) -> Result<(), End> {
    let g = b.grid;
    let found = call_new(g, b.axes, b.vals);
    t.same(
        Call::New,
        Part::Number,
        0,
        number_of(b.outcome),
        number_of(found),
    )?;
    t.same(Call::New, Part::Query, 0, 0, query_of(found))?;
    t.same(Call::New, Part::Axis, 0, b.axis, axis_of(found))?;
    if let Err(Refusal { check, axis, .. }) = b.outcome {
        same_single(t, g, b.axes, b.vals, [0.0; 4], refusal(check, axis))?;
    }
    Ok(())
}

// How many queries of a group are asked, whatever the corpus says.
pub fn at_most_64(x: usize) -> usize
    ensures { result ≡ min x 64 }
{
    x.min(64)
}

// The next group.
fn run_group(t: &mut Tally, reader: &mut Reader, floats: &[f64]) -> Result<(), End> {
    let b = group_at(reader, floats)?;
    t.query = 0;
    run_new(t, b)?;
    let mut values = marked();
    let mut gradients = marked();
    let mut batch = b.outcome;
    let count = at_most_64(b.grid.count);
    for i in 0..count {
        batch = run_query(t, reader, b, i, batch, &mut values, &mut gradients)?;
    }
    run_batches(
        t, b.grid, b.axes, b.vals, b.queries, batch, &values, &gradients,
    )?;
    Ok(())
}

// All groups, which the tally counts. What is left over is a fault.
pub fn run(t: &mut Tally, words: &[u64], floats: &[f64]) -> Result<(), End> {
    let mut reader = Reader { words, at: 0 };
    for _ in 0..reader.word()? {
        run_group(t, &mut reader, floats)?;
        t.groups = t.groups.wrapping_add(1);
    }
    if reader.at < words.len() {
        return Err(End::Faulty(Fault::Trailing));
    }
    Ok(())
}
