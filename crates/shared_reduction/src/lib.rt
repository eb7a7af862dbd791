// The reduction of a block to its value and to every component of its gradient at once: a sum that several of them need is taken once.
#![tactic(auto)]

ghost use Rattle.std.specs.Prelude.{◌≡◌, ℕ, ◌+◌, ◌*◌, ◌^◌, ◌≤◌, ◌<◌, [], ◌∷◌, length, get_or, take};
ghost use Rattle.std.specs.Float.{nan};
ghost use Rattle.ieee.specs.Numbers.{zero};
ghost use Rattle.interp_math.specs.Dot.{dot4};
ghost use Rattle.reduction.specs.Internal.{from, reach};
ghost use Rattle.shared_sums.specs.Sums.{steps_of};
ghost use Rattle.shared_sums.specs.Internal.{Reduced};

use counted_sums::{Sums, none, sum4};
use interp_math::Real;
use reduction::{Axes, Four, NoAxis, One, OneMore, Three, Two, along};

// What the axes so far reduce a block to: its value, a component for each of these axes and +0 for the others; and the sums taken, also before it.
#[derive(Clone, Copy)]
pub struct Shared<T> {
    pub value: T,
    pub gradient: [T; 4],
    pub sums: Sums,
}

// Over one axis more: the value and each component of the axes before it by the axis's weights, its own component by its derivative weights.
fn over_axis<T: Real>(
    axis: usize,
    weights: [T; 4],
    derivatives: [T; 4],
    v0: Shared<T>,
    v1: Shared<T>,
    v2: Shared<T>,
    v3: Shared<T>,
) -> Shared<T>
    requires axis_bound { axis < 4 }
    requires axis_bound_2 { v3.sums.taken + (2 + axis) < 2 ^ 64 }
    ensures value_value { T.float result.value ≡ dot4 T.format (T.floats weights) (T.float v0.value ∷ T.float v1.value ∷ T.float v2.value ∷ T.float v3.value ∷ []) }
    ensures by_index { (d : ℕ) → d < axis → get_or (T.floats result.gradient) d nan
        ≡ dot4 T.format (T.floats weights) (get_or (T.floats v0.gradient) d nan ∷ get_or (T.floats v1.gradient) d nan ∷ get_or (T.floats v2.gradient) d nan ∷ get_or (T.floats v3.gradient) d nan ∷ []) }
    ensures nan_value { get_or (T.floats result.gradient) axis nan ≡ dot4 T.format (T.floats derivatives) (T.float v0.value ∷ T.float v1.value ∷ T.float v2.value ∷ T.float v3.value ∷ []) }
    ensures by_index_2 { (d : ℕ) → axis < d → d < 4 → get_or (T.floats result.gradient) d nan ≡ zero }
    ensures taken_value { result.sums.taken ≡ v3.sums.taken + (2 + axis) }
{
    let vals = [v0.value, v1.value, v2.value, v3.value];
    let g0 = v0.gradient;
    let g1 = v1.gradient;
    let g2 = v2.gradient;
    let g3 = v3.gradient;
    let value = sum4(weights, vals, v3.sums);
    let mut sums = value.sums;
    let mut gradient = [T::zero(); 4];
    for d in 0..axis {
        let component = sum4(weights, [g0[d], g1[d], g2[d], g3[d]], sums);
        gradient[d] = component.value;
        sums = component.sums;
    }
    let own = sum4(derivatives, vals, sums);
    gradient[axis] = own.value;
    let taken = own.sums;
    Shared {
        value: value.value,
        gradient,
        sums: taken,
    }
}

// The block from its first value's index on, over the axes from the first on, axis 0 first.
pub trait SharedAxes: Axes {
    fn shared<T: Real>(
        vals: &[T],
        weights: [[T; 4]; 4],
        derivatives: [[T; 4]; 4],
        strides: [usize; 4],
        base: usize,
        sums: Sums,
    ) -> Shared<T>
        requires number_bound { Self.number ≤ 4 }
        requires within { base + reach (take Self.number strides) < length vals.now }
        requires steps_of_bound { sums.taken + steps_of Self.number < 2 ^ 64 }
        ensures reduced { Reduced T.format Self.number (T.rows weights) (T.rows derivatives) (from (T.floats vals.now) strides base) (T.float result.value) (T.floats result.gradient) }
        ensures taken_value { result.sums.taken ≡ sums.taken + steps_of Self.number };
}

// A value of the table.
impl SharedAxes for NoAxis {
    fn shared<T: Real>(
        vals: &[T],
        _weights: [[T; 4]; 4],
        _derivatives: [[T; 4]; 4],
        _strides: [usize; 4],
        base: usize,
        sums: Sums,
    ) -> Shared<T> {
        Shared {
            value: vals[base],
            gradient: [T::zero(); 4],
            sums,
        }
    }
}

impl<A: SharedAxes> SharedAxes for OneMore<A> {
    fn shared<T: Real>(
        vals: &[T],
        weights: [[T; 4]; 4],
        derivatives: [[T; 4]; 4],
        strides: [usize; 4],
        base: usize,
        sums: Sums,
    ) -> Shared<T> {
        let last = A::number();
        let at = along(base, strides[last]);
        let v0 = A::shared(vals, weights, derivatives, strides, at[0], sums);
        let v1 = A::shared(vals, weights, derivatives, strides, at[1], v0.sums);
        let v2 = A::shared(vals, weights, derivatives, strides, at[2], v1.sums);
        let v3 = A::shared(vals, weights, derivatives, strides, at[3], v2.sums);
        over_axis(last, weights[last], derivatives[last], v0, v1, v2, v3)
    }
}

// The whole reduction over 1 to 4 axes, from no sum on.
pub fn reduce_shared<T: Real>(
    axis_count: usize,
    vals: &[T],
    weights: [[T; 4]; 4],
    derivatives: [[T; 4]; 4],
    strides: [usize; 4],
    base: usize,
) -> Shared<T>
    requires { (1 ≤ axis_count) × (axis_count ≤ 4) × (base + reach (take axis_count strides) < length vals.now) }
    ensures reduced { Reduced T.format axis_count (T.rows weights) (T.rows derivatives) (from (T.floats vals.now) strides base) (T.float result.value) (T.floats result.gradient) }
    ensures taken_value { result.sums.taken ≡ steps_of axis_count }
{
    let sums = none();
    if axis_count == 3 {
        return Three::shared(vals, weights, derivatives, strides, base, sums);
    }
    if axis_count == 1 {
        return One::shared(vals, weights, derivatives, strides, base, sums);
    }
    if axis_count == 2 {
        return Two::shared(vals, weights, derivatives, strides, base, sums);
    }
    Four::shared(vals, weights, derivatives, strides, base, sums)
}
