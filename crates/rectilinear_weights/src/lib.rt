// The weights of a block on an axis of src/multicubic/rectilinear.rs, by where the query lies in it: inside, or at either end.
// At an end x is the query less point 1, or less point 2 at the high end; h01, h12 and h23 are the block's gaps.
#![tactic(auto)]

ghost use Rattle.std.specs.Prelude.{◌≡◌};
ghost use Rattle.std.specs.Float.Ieee.{div, neg};
ghost use Rattle.ieee.specs.Numbers.{one};
ghost use Rattle.rectilinear_weights.specs.Weights.{centered_difference, interior, cubic_low, cubic_high, low_of, low_slope_of, high_of, high_slope_of};

use interp_math::{Real, hermite_basis, hermite_basis_derivative, mul_add};

// Second-order central difference weights on unequal gaps.
fn centered_difference_weights<T: Real>(h01: T, h12: T) -> [T; 3]
    ensures { T.floats result ≡ centered_difference T.format (T.float h01) (T.float h12) }
{
    let denom = h01 + h12;
    let a = h01 / denom;
    let c = h12 / denom;
    [-c / h01, mul_add(c, T::one() / h01, -a / h12), a / h12]
}

// The row inside, from the basis of t or from its derivative, and from the gaps beside the middle one, over it.
pub fn interior<T: Real>(h: [T; 4], h01: T, h23: T) -> [T; 4]
    ensures { T.floats result ≡ interior T.format (T.floats h) (centered_difference T.format (T.float h01) one) (centered_difference T.format one (T.float h23)) }
{
    let k0 = centered_difference_weights(h01, T::one());
    let k1 = centered_difference_weights(T::one(), h23);
    let h10 = h[1];
    let h11 = h[3];
    [
        h10 * k0[0],
        h[0] + h10 * k0[1] + h11 * k1[0],
        h[2] + h10 * k0[2] + h11 * k1[1],
        h11 * k1[2],
    ]
}

// The same at the ends, from the slope beside the end.
fn cubic_low<T: Real>(h: [T; 4], k0: [T; 3]) -> [T; 4]
    ensures { T.floats result ≡ cubic_low T.format (T.floats h) (T.floats k0) }
{
    let one = T::one();
    let two = one + one;
    let h11 = h[3];
    let slope_factor = h11 - h[1];
    [
        h[2] + two * h11 + slope_factor * k0[0],
        h[0] - two * h11 + slope_factor * k0[1],
        slope_factor * k0[2],
        T::zero(),
    ]
}

fn cubic_high<T: Real>(h: [T; 4], k0: [T; 3]) -> [T; 4]
    ensures { T.floats result ≡ cubic_high T.format (T.floats h) (T.floats k0) }
{
    let one = T::one();
    let two = one + one;
    let h11 = h[3];
    let slope_factor = h[1] - h11;
    [
        T::zero(),
        slope_factor * k0[0],
        h[0] - two * h11 + slope_factor * k0[1],
        h[2] + two * h11 + slope_factor * k0[2],
    ]
}

// At the low end t runs against the query.
pub fn low_weights<T: Real>(x: T, h01: T, h12: T, linearize_extrapolation: bool) -> [T; 4]
    ensures { T.floats result ≡ low_of T.format (div T.format (neg (T.float x)) (T.float h01)) (div T.format (T.float h12) (T.float h01)) linearize_extrapolation }
{
    let one = T::one();
    let two = one + one;
    let t = -x / h01;
    let k0 = centered_difference_weights(one, h12 / h01);
    if linearize_extrapolation {
        let s = t - one;
        [
            one + s * (two + k0[0]),
            s * (-two + k0[1]),
            s * k0[2],
            T::zero(),
        ]
    } else {
        cubic_low(hermite_basis(t), k0)
    }
}

// Derivatives are by t.
pub fn low_weight_derivatives<T: Real>(
    x: T,
    h01: T,
    h12: T,
    linearize_extrapolation: bool,
) -> [T; 4]
    ensures { T.floats result ≡ low_slope_of T.format (div T.format (neg (T.float x)) (T.float h01)) (div T.format (T.float h12) (T.float h01)) linearize_extrapolation }
{
    let one = T::one();
    let two = one + one;
    let k0 = centered_difference_weights(one, h12 / h01);
    if linearize_extrapolation {
        [two + k0[0], -two + k0[1], k0[2], T::zero()]
    } else {
        cubic_low(hermite_basis_derivative(-x / h01), k0)
    }
}

pub fn high_weights<T: Real>(x: T, h12: T, h23: T, linearize_extrapolation: bool) -> [T; 4]
    ensures { T.floats result ≡ high_of T.format (div T.format (T.float x) (T.float h23)) (div T.format (T.float h12) (T.float h23)) linearize_extrapolation }
{
    let one = T::one();
    let two = one + one;
    let t = x / h23;
    let k0 = centered_difference_weights(h12 / h23, one);
    if linearize_extrapolation {
        let s = t - one;
        [
            T::zero(),
            -s * k0[0],
            s * (-two - k0[1]),
            one + s * (two - k0[2]),
        ]
    } else {
        cubic_high(hermite_basis(t), k0)
    }
}

pub fn high_weight_derivatives<T: Real>(
    x: T,
    h12: T,
    h23: T,
    linearize_extrapolation: bool,
) -> [T; 4]
    ensures { T.floats result ≡ high_slope_of T.format (div T.format (T.float x) (T.float h23)) (div T.format (T.float h12) (T.float h23)) linearize_extrapolation }
{
    let one = T::one();
    let two = one + one;
    let k0 = centered_difference_weights(h12 / h23, one);
    if linearize_extrapolation {
        [T::zero(), -k0[0], -two - k0[1], two - k0[2]]
    } else {
        cubic_high(hermite_basis_derivative(x / h23), k0)
    }
}
