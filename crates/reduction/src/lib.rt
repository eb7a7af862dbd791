// Strides, and the reduction of a block by four-term sums, over 1 to 4 axes: what the value and each component end in.
#![tactic(auto)]

ghost use Rattle.std.specs.Prelude.{◌≡◌, false, ℕ, suc, ◌+◌, ◌*◌, ◌^◌, ◌≤◌, ◌<◌, length, get_or, take};
ghost use Rattle.multicubic.specs.Grid.{any_over};
ghost use Rattle.reduction.specs.Value.{strides_of, reduce_of};
ghost use Rattle.reduction.specs.Internal.{from, reach, Along};

use interp_math::{Real, dot4};
use std::marker::PhantomData;

// The strides of the first n axes, the last axis fastest.
pub fn strides(n: usize, counts: [usize; 4]) -> [usize; 4]
    requires n_bound { n ≤ 4 }
    requires counts_value { any_over (take n counts) ≡ false }
    ensures { take n result ≡ strides_of (take n counts) }
{
    let mut strides = [0usize; 4];
    let mut stride: usize = 1;
    for i in (0..n).rev() {
        strides[i] = stride;
        stride *= counts[i];
    }
    strides
}

// The four indices along one axis from an index on: each is the one before it plus the axis's stride.
pub fn along(base: usize, stride: usize) -> [usize; 4]
    requires { base + 3 * stride < 2 ^ 64 }
    ensures { Along base stride result }
{
    let i1 = base + stride;
    let i2 = i1 + stride;
    let i3 = i2 + stride;
    [base, i1, i2, i3]
}

// The axes of a block from the first on, by number: none, or one more. A reduction over them is a function of its own for each number.
pub trait Axes {
    ghost number: { ℕ };

    // How many they are.
    fn number() -> usize
        requires { number ≤ 4 }
        ensures { result ≡ number };

    // The block from its first value's index on, reduced over the axes, axis 0 first.
    fn reduce<T: Real>(vals: &[T], weights: [[T; 4]; 4], strides: [usize; 4], base: usize) -> T
        requires number_bound { number ≤ 4 }
        requires within { base + reach (take number strides) < length vals.now }
        ensures { T.float result ≡ reduce_of T.format (take number (T.rows weights)) (from (T.floats vals.now) strides base) };
}

pub struct NoAxis;

pub struct OneMore<A: Axes>(PhantomData<A>);

impl Axes for NoAxis {
    ghost number = { 0 };

    fn number() -> usize {
        0
    }

    fn reduce<T: Real>(vals: &[T], _weights: [[T; 4]; 4], _strides: [usize; 4], base: usize) -> T {
        vals[base]
    }
}

impl<A: Axes> Axes for OneMore<A> {
    ghost number = { suc A.number };

    fn number() -> usize {
        A::number() + 1
    }

    fn reduce<T: Real>(vals: &[T], weights: [[T; 4]; 4], strides: [usize; 4], base: usize) -> T {
        let last = A::number();
        let at = along(base, strides[last]);
        let v0 = A::reduce(vals, weights, strides, at[0]);
        let v1 = A::reduce(vals, weights, strides, at[1]);
        let v2 = A::reduce(vals, weights, strides, at[2]);
        let v3 = A::reduce(vals, weights, strides, at[3]);
        dot4(weights[last], [v0, v1, v2, v3])
    }
}

pub type One = OneMore<NoAxis>;

pub type Two = OneMore<One>;

pub type Three = OneMore<Two>;

pub type Four = OneMore<Three>;

// Over one axis, two, three and four.
pub fn reduce1<T: Real>(vals: &[T], weights: [[T; 4]; 4], strides: [usize; 4], base: usize) -> T
    requires { base + 3 * get_or strides 0 0 < length vals.now }
    ensures { T.float result ≡ reduce_of T.format (take 1 (T.rows weights)) (from (T.floats vals.now) strides base) }
{
    One::reduce(vals, weights, strides, base)
}

pub fn reduce2<T: Real>(vals: &[T], weights: [[T; 4]; 4], strides: [usize; 4], base: usize) -> T
    requires { base + 3 * get_or strides 0 0 + 3 * get_or strides 1 0 < length vals.now }
    ensures { T.float result ≡ reduce_of T.format (take 2 (T.rows weights)) (from (T.floats vals.now) strides base) }
{
    Two::reduce(vals, weights, strides, base)
}

pub fn reduce3<T: Real>(vals: &[T], weights: [[T; 4]; 4], strides: [usize; 4], base: usize) -> T
    requires { base + 3 * get_or strides 0 0 + 3 * get_or strides 1 0 + 3 * get_or strides 2 0 < length vals.now }
    ensures { T.float result ≡ reduce_of T.format (take 3 (T.rows weights)) (from (T.floats vals.now) strides base) }
{
    Three::reduce(vals, weights, strides, base)
}

pub fn reduce4<T: Real>(vals: &[T], weights: [[T; 4]; 4], strides: [usize; 4], base: usize) -> T
    requires { base + 3 * get_or strides 0 0 + 3 * get_or strides 1 0 + 3 * get_or strides 2 0 + 3 * get_or strides 3 0 < length vals.now }
    ensures { T.float result ≡ reduce_of T.format (take 4 (T.rows weights)) (from (T.floats vals.now) strides base) }
{
    Four::reduce(vals, weights, strides, base)
}
