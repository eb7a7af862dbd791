// One axis of src/multicubic/rectilinear.rs: the place of a query, and the weights of its block.
#![tactic(auto)]

ghost use Rattle.std.specs.Prelude.{◌≡◌, false, cond, ◌+◌, ◌-◌, ◌*◌, ◌≤◌, ◌<◌, length, get_or};
ghost use Rattle.std.specs.Float.{nan};
ghost use Rattle.std.specs.Float.Ieee.{lt};
ghost use Rattle.rectilinear_order.specs.Grid.{disorder};
ghost use Rattle.multicubic.specs.Answers.{number_of, place_outcome, place_in};
ghost use Rattle.rectilinear_axis.specs.Place.{count_below, loc_of, loc_number, loc_place};
ghost use Rattle.rectilinear_axis.specs.Internal.{Test, Forward};
ghost use Rattle.rectilinear_axis.specs.Weights.{weights_of, derivatives_of, cell_of, weights_at, derivatives_at};

use interp_math::{Real, hermite_basis, hermite_basis_derivative, scale_weights};
use multicubic::{Loc, LocError, Marks, Place, Saturation, place_from};
use rectilinear_weights::{
    high_weight_derivatives, high_weights, interior, low_weight_derivatives, low_weights,
};

// 1 where the entry is below v, else 0: as a number, so that the search's next step is no branch.
fn entry_below<T: Real>(grid: &[T], at: usize, v: T) -> usize
    requires at_in_bounds { at < length grid.now }
    requires grid_value { disorder (T.floats grid.now) ≡ false }
    ensures { Test result at (count_below (T.float v) (T.floats grid.now)) }
{
    grid[at].is_below(v) as usize
}

// lo, forward by as many of its next three quarters as end below v.
fn forward<T: Real>(grid: &[T], lo: usize, q: usize, v: T) -> usize
    requires q_in_bounds { lo + 3 * q < length grid.now }
    requires grid_value { disorder (T.floats grid.now) ≡ false }
    requires lo_bound { lo ≤ count_below (T.float v) (T.floats grid.now) }
    ensures { Forward result lo q (count_below (T.float v) (T.floats grid.now)) }
{
    let below = entry_below(grid, lo + q, v)
        + entry_below(grid, lo + 2 * q, v)
        + entry_below(grid, lo + 3 * q, v);
    lo + q * below
}

// The number of entries below v, which is at least lo and at most lo + size.
fn count_from<T: Real>(grid: &[T], lo: usize, size: usize, v: T) -> usize
    requires size_in_bounds { lo + size ≤ length grid.now }
    requires grid_value { disorder (T.floats grid.now) ≡ false }
    requires lo_bound { lo ≤ count_below (T.float v) (T.floats grid.now) }
    requires grid_bound { count_below (T.float v) (T.floats grid.now) ≤ lo + size }
    ensures { result ≡ count_below (T.float v) (T.floats grid.now) }
{
    let mut n = lo;
    for k in 0..size {
        n += entry_below(grid, lo + k, v);
    }
    n
}

// The number of entries below v, by quarters.
fn partition_point<T: Real>(grid: &[T], v: T) -> usize
    requires { disorder (T.floats grid.now) ≡ false }
    ensures { result ≡ count_below (T.float v) (T.floats grid.now) }
{
    let mut lo: usize = 0;
    let mut size = grid.len();
    while 3 < size {
        let q = size / 4;
        lo = forward(grid, lo, q, v);
        size = size - 3 * q;
    }
    count_from(grid, lo, size, v)
}

// The place of v.
pub fn get_loc<T: Real>(grid: &[T], v: T) -> Loc
    requires in_bounds { 4 ≤ length grid.now }
    requires grid_value { disorder (T.floats grid.now) ≡ false }
    ensures value { result ≡ loc_of (T.floats grid.now) (T.float v) }
    ensures result_value { number_of (place_outcome 0 0 result) ≡ loc_number (T.float v) }
    ensures result_value_2 { place_in result ≡ loc_place (T.floats grid.now) (T.float v) }
{
    if v != v {
        return Err(LocError::NotANumber);
    }
    let n = grid.len();
    Ok(place_from(n, partition_point(grid, v)))
}

// Past which ends of the axis v lies.
pub fn marks_at<T: Real>(grid: &[T], v: T) -> Marks
    requires { 4 ≤ length grid.now }
    ensures below_value { result.below ≡ lt (T.float v) (get_or (T.floats grid.now) 0 nan) }
    ensures above_value { result.above ≡ lt (get_or (T.floats grid.now) (length grid.now - 1) nan) (T.float v) }
{
    let last = grid.len() - 1;
    Marks {
        below: v.is_below(grid[0]),
        above: grid[last].is_below(v),
    }
}

// v, or the node of the end that it is past.
pub fn hold<T: Real>(grid: &[T], v: T, marks: Marks) -> T
    requires { 4 ≤ length grid.now }
    ensures { T.float result ≡ cond marks.below (get_or (T.floats grid.now) 0 nan)
        (cond marks.above (get_or (T.floats grid.now) (length grid.now - 1) nan) (T.float v)) }
{
    if marks.below {
        return grid[0];
    }
    if marks.above {
        return grid[grid.len() - 1];
    }
    v
}

// The block's four entries.
fn grid_cell<T: Real>(grid: &[T], origin: usize) -> [T; 4]
    requires { origin + 4 ≤ length grid.now }
    ensures { T.floats result ≡ cell_of (T.floats grid.now) origin }
{
    [
        grid[origin],
        grid[origin + 1],
        grid[origin + 2],
        grid[origin + 3],
    ]
}

// The four weights of a block, by the class of the query's place. Only the Outside classes follow the straight line.
fn interp_weights<T: Real>(
    grid_cell: [T; 4],
    x: T,
    sat: Saturation,
    linearize_extrapolation: bool,
) -> [T; 4]
    ensures { T.floats result ≡ weights_of T.format sat linearize_extrapolation (T.floats grid_cell) (T.float x) }
{
    let x1 = grid_cell[1];
    let x2 = grid_cell[2];
    let h01 = x1 - grid_cell[0];
    let h12 = x2 - x1;
    let h23 = grid_cell[3] - x2;
    match sat {
        Saturation::None => interior(hermite_basis((x - x1) / h12), h01 / h12, h23 / h12),
        Saturation::InsideLow => low_weights(x - x1, h01, h12, false),
        Saturation::OutsideLow => low_weights(x - x1, h01, h12, linearize_extrapolation),
        Saturation::InsideHigh => high_weights(x - x2, h12, h23, false),
        Saturation::OutsideHigh => high_weights(x - x2, h12, h23, linearize_extrapolation),
    }
}

// Their derivatives by the query.
fn interp_weight_derivatives<T: Real>(
    grid_cell: [T; 4],
    x: T,
    sat: Saturation,
    linearize_extrapolation: bool,
) -> [T; 4]
    ensures { T.floats result ≡ derivatives_of T.format sat linearize_extrapolation (T.floats grid_cell) (T.float x) }
{
    let one = T::one();
    let x1 = grid_cell[1];
    let x2 = grid_cell[2];
    let h01 = x1 - grid_cell[0];
    let h12 = x2 - x1;
    let h23 = grid_cell[3] - x2;
    match sat {
        Saturation::None => scale_weights(
            interior(
                hermite_basis_derivative((x - x1) / h12),
                h01 / h12,
                h23 / h12,
            ),
            one / h12,
        ),
        Saturation::InsideLow => scale_weights(
            low_weight_derivatives(x - x1, h01, h12, false),
            -one / h01,
        ),
        Saturation::OutsideLow => scale_weights(
            low_weight_derivatives(x - x1, h01, h12, linearize_extrapolation),
            -one / h01,
        ),
        Saturation::InsideHigh => scale_weights(
            high_weight_derivatives(x - x2, h12, h23, false),
            one / h23,
        ),
        Saturation::OutsideHigh => scale_weights(
            high_weight_derivatives(x - x2, h12, h23, linearize_extrapolation),
            one / h23,
        ),
    }
}

// The weights of v's block at its place.
pub fn weights_at<T: Real>(grid: &[T], v: T, place: Place, linearize_extrapolation: bool) -> [T; 4]
    requires { place.origin + 4 ≤ length grid.now }
    ensures { T.floats result ≡ weights_at T.format (T.floats grid.now) linearize_extrapolation (T.float v) place }
{
    let class = place.class;
    let cell = grid_cell(grid, place.origin);
    interp_weights(cell, v, class, linearize_extrapolation)
}

// Its derivative weights.
pub fn derivatives_at<T: Real>(
    grid: &[T],
    v: T,
    place: Place,
    linearize_extrapolation: bool,
) -> [T; 4]
    requires { place.origin + 4 ≤ length grid.now }
    ensures { T.floats result ≡ derivatives_at T.format (T.floats grid.now) linearize_extrapolation (T.float v) place }
{
    let class = place.class;
    let cell = grid_cell(grid, place.origin);
    interp_weight_derivatives(cell, v, class, linearize_extrapolation)
}
