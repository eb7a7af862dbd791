// One axis of src/multicubic/regular.rs: the place of a query, and the weights of its block.
#![tactic(auto)]

ghost use Rattle.std.specs.Prelude.{◌≡◌, ◌-◌, ◌<◌, ◌≤◌, cond, false, if◌then◌else◌, pos};
ghost use Rattle.std.specs.Int.{w64};
ghost use Rattle.std.specs.Float.{fin, minus_one, two_to, ◌<ᶠ◌, float_to_unsigned};
ghost use Rattle.std.specs.Float.Ieee.{lt, of_int};
ghost use Rattle.multicubic.specs.Answers.{number_of, place_outcome, place_in};
ghost use Rattle.regular_axis.specs.Place.{loc_of, loc_number, loc_place};
ghost use Rattle.regular_axis.specs.Weights.{node, t_of, interior, cubic_end, at_low, at_high, end_of, end_slope_of};
ghost use Rattle.regular_axis.specs.Weights.{weights_of, derivatives_of, weights_at, derivatives_at};

use interp_math::{Real, hermite_basis, hermite_basis_derivative, scale_weights};
use multicubic::{Axis, Loc, LocError, Marks, Place, Saturation, place_from};

// A float type whose values count an axis's nodes: to a float from an index, and back from a quotient.
pub trait Index: Real {
    // The float of an index: no node's reaches 2^16.
    fn from_index(i: usize) -> Self
        requires { i < 65536 }
        ensures { Self.float result ≡ of_int Self.format (pos i) };

    // 2^63, from which on, and below whose negative, a quotient has no place.
    fn two_to_63() -> Self
        ensures { Self.float result ≡ fin false 1 (pos 63) };

    // The whole part.
    fn truncated(self) -> u64
        requires lower_bound { minus_one <ᶠ Self.float self }
        requires upper_bound { Self.float self <ᶠ two_to 64 }
        ensures { result ≡ float_to_unsigned w64 (Self.float self) };
}

impl Index for f64 {
    fn from_index(i: usize) -> f64 {
        (i as u32) as f64
    }

    fn two_to_63() -> f64 {
        9223372036854775808.0f64
    }

    fn truncated(self) -> u64 {
        std::num::truncating_f64_to_u64(self)
    }
}

impl Index for f32 {
    fn from_index(i: usize) -> f32 {
        (i as u16) as f32
    }

    fn two_to_63() -> f32 {
        9223372036854775808.0f32
    }

    fn truncated(self) -> u64 {
        std::num::truncating_f32_to_u64(self)
    }
}

// The place of v. A quotient below zero has a negative floor, so it is OutsideLow; from zero on the floor is the truncation.
pub fn get_loc<T: Index>(axis: Axis<T>, v: T) -> Loc
    requires { 4 ≤ axis.count }
    ensures value { result ≡ loc_of T.format (T.float axis.start) (T.float axis.step) axis.count (T.float v) }
    ensures result_value { number_of (place_outcome 0 0 result) ≡ loc_number T.format (T.float axis.start) (T.float axis.step) (T.float v) }
    ensures result_value_2 { place_in result ≡ loc_place T.format (T.float axis.start) (T.float axis.step) axis.count (T.float v) }
{
    if v != v {
        return Err(LocError::NotANumber);
    }
    let n = axis.count;
    let q = (v - axis.start) / axis.step;
    if q >= T::zero() {
        if q < T::two_to_63() {
            let floor = q.truncated() as usize;
            return Ok(place_from(n, floor + 1));
        }
        return Err(LocError::Unplaceable);
    }
    if q >= -T::two_to_63() {
        return Ok(place_from(n, 0));
    }
    Err(LocError::Unplaceable)
}

// Node i.
fn node<T: Index>(axis: Axis<T>, i: usize) -> T
    requires { i < 65536 }
    ensures { T.float result ≡ node T.format (T.float axis.start) (T.float axis.step) i }
{
    axis.start + axis.step * T::from_index(i)
}

// The axis's ends.
fn first_node<T: Index>(axis: Axis<T>) -> T
    ensures { T.float result ≡ node T.format (T.float axis.start) (T.float axis.step) 0 }
{
    node(axis, 0)
}

fn last_node<T: Index>(axis: Axis<T>) -> T
    requires { (4 ≤ axis.count) × (axis.count ≤ 4096) }
    ensures { T.float result ≡ node T.format (T.float axis.start) (T.float axis.step) (axis.count - 1) }
{
    node(axis, axis.count - 1)
}

// Past which ends of the axis v lies.
pub fn marks_at<T: Index>(axis: Axis<T>, v: T) -> Marks
    requires { (4 ≤ axis.count) × (axis.count ≤ 4096) }
    ensures below_value { result.below ≡ lt (T.float v) (node T.format (T.float axis.start) (T.float axis.step) 0) }
    ensures above_value { result.above ≡ lt (node T.format (T.float axis.start) (T.float axis.step) (axis.count - 1)) (T.float v) }
{
    Marks {
        below: v < first_node(axis),
        above: last_node(axis) < v,
    }
}

// v, or the node of the end that it is past.
pub fn hold<T: Index>(axis: Axis<T>, v: T, marks: Marks) -> T
    requires { (4 ≤ axis.count) × (axis.count ≤ 4096) }
    ensures { T.float result ≡ cond marks.below (node T.format (T.float axis.start) (T.float axis.step) 0)
        (if marks.above then node T.format (T.float axis.start) (T.float axis.step) (axis.count - 1) else T.float v) }
{
    if marks.below {
        return first_node(axis);
    }
    if marks.above {
        return last_node(axis);
    }
    v
}

// v relative to the block's point 1, in steps.
fn local_t<T: Index>(axis: Axis<T>, origin: usize, v: T) -> T
    requires { origin < 4096 }
    ensures { T.float result ≡ t_of T.format (T.float axis.start) (T.float axis.step) origin (T.float v) }
{
    (v - node(axis, origin + 1)) / axis.step
}

// A class's row from the basis of t, or from its derivative.
fn interior<T: Real>(h: [T; 4]) -> [T; 4]
    ensures { T.floats result ≡ interior T.format (T.floats h) }
{
    let one = T::one();
    let two = one + one;
    [
        -h[1] / two,
        h[0] - h[3] / two,
        h[2] + h[1] / two,
        h[3] / two,
    ]
}

// The weights at the low end: of the end point, the one beside it, and the next. The high end mirrors them.
fn cubic_end<T: Real>(h: [T; 4]) -> [T; 4]
    ensures { T.floats result ≡ at_low (cubic_end T.format (T.floats h)) }
{
    let one = T::one();
    let two = one + one;
    [
        h[2] + h[1] / two + (one + one / two) * h[3],
        h[0] - two * h[3],
        (h[3] - h[1]) / two,
        T::zero(),
    ]
}

fn low_weights<T: Real>(t: T, linearize_extrapolation: bool) -> [T; 4]
    ensures { T.floats result ≡ at_low (end_of T.format (T.float t) linearize_extrapolation) }
{
    let one = T::one();
    let two = one + one;
    if linearize_extrapolation {
        let s = t - one;
        [one + s * (one + one / two), -two * s, s / two, T::zero()]
    } else {
        cubic_end(hermite_basis(t))
    }
}

fn low_weight_derivatives<T: Real>(t: T, linearize_extrapolation: bool) -> [T; 4]
    ensures { T.floats result ≡ at_low (end_slope_of T.format (T.float t) linearize_extrapolation) }
{
    let one = T::one();
    let two = one + one;
    if linearize_extrapolation {
        [one + one / two, -two, one / two, T::zero()]
    } else {
        cubic_end(hermite_basis_derivative(t))
    }
}

fn high_weights<T: Real>(t: T, linearize_extrapolation: bool) -> [T; 4]
    ensures { T.floats result ≡ at_high (end_of T.format (T.float t) linearize_extrapolation) }
{
    let w = low_weights(t, linearize_extrapolation);
    [w[3], w[2], w[1], w[0]]
}

fn high_weight_derivatives<T: Real>(t: T, linearize_extrapolation: bool) -> [T; 4]
    ensures { T.floats result ≡ at_high (end_slope_of T.format (T.float t) linearize_extrapolation) }
{
    let w = low_weight_derivatives(t, linearize_extrapolation);
    [w[3], w[2], w[1], w[0]]
}

// The four weights of a block, by the class of the query's place.
fn interp_weights<T: Real>(t: T, sat: Saturation, linearize_extrapolation: bool) -> [T; 4]
    ensures { T.floats result ≡ weights_of T.format sat linearize_extrapolation (T.float t) }
{
    match sat {
        Saturation::None => interior(hermite_basis(t)),
        Saturation::InsideLow => low_weights(-t, false),
        Saturation::OutsideLow => low_weights(-t, linearize_extrapolation),
        Saturation::InsideHigh => high_weights(t - T::one(), false),
        Saturation::OutsideHigh => high_weights(t - T::one(), linearize_extrapolation),
    }
}

// Their derivatives by the query.
fn interp_weight_derivatives<T: Real>(
    t: T,
    sat: Saturation,
    linearize_extrapolation: bool,
    inv_step: T,
) -> [T; 4]
    ensures { T.floats result ≡ derivatives_of T.format sat linearize_extrapolation (T.float t) (T.float inv_step) }
{
    match sat {
        Saturation::None => scale_weights(interior(hermite_basis_derivative(t)), inv_step),
        Saturation::InsideLow => scale_weights(low_weight_derivatives(-t, false), -inv_step),
        Saturation::OutsideLow => scale_weights(
            low_weight_derivatives(-t, linearize_extrapolation),
            -inv_step,
        ),
        Saturation::InsideHigh => scale_weights(
            high_weight_derivatives(t - T::one(), false),
            inv_step,
        ),
        Saturation::OutsideHigh => scale_weights(
            high_weight_derivatives(t - T::one(), linearize_extrapolation),
            inv_step,
        ),
    }
}

// The weights of v's block at its place.
pub fn weights_at<T: Index>(
    axis: Axis<T>,
    v: T,
    place: Place,
    linearize_extrapolation: bool,
) -> [T; 4]
    requires { place.origin < 4096 }
    ensures { T.floats result ≡ weights_at T.format (T.float axis.start) (T.float axis.step) linearize_extrapolation (T.float v) place }
{
    let class = place.class;
    let t = local_t(axis, place.origin, v);
    interp_weights(t, class, linearize_extrapolation)
}

// Its derivative weights.
pub fn derivatives_at<T: Index>(
    axis: Axis<T>,
    v: T,
    place: Place,
    linearize_extrapolation: bool,
) -> [T; 4]
    requires { place.origin < 4096 }
    ensures { T.floats result ≡ derivatives_at T.format (T.float axis.start) (T.float axis.step) linearize_extrapolation (T.float v) place }
{
    let class = place.class;
    let t = local_t(axis, place.origin, v);
    interp_weight_derivatives(t, class, linearize_extrapolation, T::one() / axis.step)
}
