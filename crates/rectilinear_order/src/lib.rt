// The order of the axes of a rectilinear grid: checks 5, 6 and 10. The Rust compares only the first two entries of each axis.
#![tactic(auto)]

ghost use Rattle.std.specs.Prelude.{◌≡◌, ℕ, ◌≤◌, ◌<◌, length, get_or, take};
ghost use Rattle.multicubic.specs.Grid.{sum, lowest};
ghost use Rattle.rectilinear_order.specs.Grid.{axes_of, not_rising, disorder, order_checks};
ghost use Rattle.rectilinear_order.specs.Internal.{not_steep, fault_of};

use interp_math::Real;
use multicubic::{Check, Outcome};

// `Real`, for a caller that names it after the comparison, `is_below`.
pub use interp_math::Real as Compare;

// Check 5 on one axis: entry 1 is not above entry 0.
fn not_rising<T: Real>(grid: &[T]) -> bool
    requires { 4 ≤ length grid.now }
    ensures { result ≡ not_rising (T.floats grid.now) }
{
    !grid[0].is_below(grid[1])
}

// Check 6 on one axis: an entry is NaN or below the one before it.
fn disordered<T: Real>(grid: &[T]) -> bool
    requires { 4 ≤ length grid.now }
    ensures { result ≡ disorder (T.floats grid.now) }
{
    for i in 1..grid.len() {
        let before = grid[i - 1];
        let entry = grid[i];
        if !(before <= entry) {
            return true;
        }
    }
    false
}

// Whether 5, 6 or 10 refuses one axis: an entry is not above the one before it.
fn not_steep<T: Real>(grid: &[T]) -> bool
    requires { 4 ≤ length grid.now }
    ensures { result ≡ not_steep (T.floats grid.now) }
{
    for next in 1..grid.len() {
        let before = grid[next - 1];
        let entry = grid[next];
        if !before.is_below(entry) {
            return true;
        }
    }
    false
}

// Check 5, check 6, or all three.
fn faulty<T: Real>(grid: &[T], check: Check) -> bool
    requires { 4 ≤ length grid.now }
    ensures { result ≡ fault_of check (T.floats grid.now) }
{
    match check {
        Check::NotRising => not_rising(grid),
        Check::Disordered => disordered(grid),
        _ => not_steep(grid),
    }
}

// The refusal of the lowest axis that the check finds at fault.
fn first_faulty<T: Real>(axis_count: usize, counts: [usize; 4], axes: &[T], check: Check) -> Outcome
    requires axis_count_bound { axis_count ≤ 4 }
    requires counts_value { sum (take axis_count counts) ≡ length axes.now }
    requires by_index { (i : ℕ) → i < axis_count → 4 ≤ get_or counts i 0 }
    ensures { result ≡ lowest check (fault_of check) 0 (axes_of (take axis_count counts) (T.floats axes.now)) }
{
    let mut at: usize = 0;
    for axis in 0..axis_count {
        let end = at + counts[axis];
        if faulty(&axes[at..end], check) {
            return Err(check.at(0, axis));
        }
        at = end;
    }
    Ok(())
}

// Checks 5, 6 and 10, each over all axes before the next. One pass takes axes that rise strictly; else it finds the lowest that does not, which
// is refused with 10 where 5 and 6 refuse none.
pub fn check_order<T: Real>(axis_count: usize, counts: [usize; 4], axes: &[T]) -> Outcome
    requires axis_count_bound { axis_count ≤ 4 }
    requires counts_value { sum (take axis_count counts) ≡ length axes.now }
    requires by_index { (i : ℕ) → i < axis_count → 4 ≤ get_or counts i 0 }
    ensures { result ≡ order_checks (axes_of (take axis_count counts) (T.floats axes.now)) }
{
    let Err(steep) = first_faulty(axis_count, counts, axes, Check::NotSteep) else {
        return Ok(());
    };
    first_faulty(axis_count, counts, axes, Check::NotRising)?;
    first_faulty(axis_count, counts, axes, Check::Disordered)?;
    Err(steep)
}
