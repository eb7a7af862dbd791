// What both kinds of grid share above their axes: what is asked of a query, and check 7. What a grid answers is defined in specs/.
#![tactic(auto)]

ghost use Rattle.std.specs.Prelude.{◌≡◌, ◌*◌, ◌/◌, ◌≤◌};
ghost use Rattle.multicubic.specs.declared.Check.TheVariants.{BatchLength};
ghost use Rattle.multicubic.specs.Types.{accepted, refusal};
ghost use Rattle.std.specs.Prelude.{Err};
ghost use Rattle.multicubic.specs.Grid.{◌then◌};
ghost use Rattle.grid.specs.Batch.{check_batch};
ghost use Rattle.grid.specs.Internal.{is_component};

use multicubic::{Check, Outcome};

// What is asked of a query: its value, or component d of its gradient.
#[derive(Clone, Copy)]
pub enum Quantity {
    Value,
    Component(usize),
}

// Whether an axis enters by its derivative weights.
pub fn is_component(quantity: Quantity, axis: usize) -> bool
    ensures { result ≡ is_component quantity axis }
{
    match quantity {
        Quantity::Value => false,
        Quantity::Component(d) => axis == d,
    }
}

fn refused_batch() -> Outcome
    ensures { result ≡ Err (refusal BatchLength 0 0) }
{
    Err(Check::BatchLength.at(0, 0))
}

// Check 7: the count of queries, the lengths of both buffers.
fn check_batch(
    axis_count: usize,
    count: usize,
    queries: usize,
    entries: usize,
    buffer: usize,
) -> Outcome
    requires { axis_count ≤ 4 }
    ensures { result ≡ check_batch axis_count count queries entries buffer }
{
    if 1048576 < count {
        return refused_batch();
    }
    let all = axis_count * count;
    if queries != all {
        return refused_batch();
    }
    if buffer != entries {
        return refused_batch();
    }
    Ok(())
}

// The grid's checks, then check 7 for values.
pub fn check_values(checked: Outcome, axis_count: usize, queries: usize, buffer: usize) -> Outcome
    requires { checked ≡ accepted → axis_count ≤ 4 }
    ensures { result ≡ (checked then check_batch axis_count buffer queries buffer buffer) }
{
    checked?;
    check_batch(axis_count, buffer, queries, buffer, buffer)
}

// The same for gradients: as many queries as the axis count divides the buffer into.
pub fn check_gradients(
    checked: Outcome,
    axis_count: usize,
    queries: usize,
    buffer: usize,
) -> Outcome
    requires { checked ≡ accepted → (1 ≤ axis_count) × (axis_count ≤ 4) }
    ensures { result ≡ (checked then check_batch axis_count (buffer / axis_count) queries (axis_count * (buffer / axis_count)) buffer) }
{
    checked?;
    let count = buffer / axis_count;
    let entries = axis_count * count;
    check_batch(axis_count, count, queries, entries, buffer)
}
