// Port of src/lib.rs (`mul_add`) and src/interp_math.rs, without fma, at either float type.
#![tactic(auto)]

ghost use Rattle.std.specs.Prelude.{◌≡◌, List, map};
ghost use Rattle.std.specs.Float.{Float as Ieee754};
ghost use Rattle.std.specs.Float.Ieee.{lt};
ghost use Rattle.interp_math.specs.Basis.{mul_add, hermite_basis, hermite_basis_derivative, scaled};
ghost use Rattle.interp_math.specs.Dot.{dot4};
ghost use Rattle.interp_math.specs.Lists.{map_rows};
ghost use Rattle.std.proofs.lemmas.List.{map-id};

use num_traits::Float;

// A float type, as the definitions see it: lists of its values, and rows of such lists, are lists of floats. At `f64` and `f32` they are the lists
// themselves, so that there a contract says the same as over floats.
pub trait Real: Float {
    ghost floats: { List Self → List Ieee754 };

    ghost rows: { List (List Self) → List (List Ieee754) };

    // Whether a value is below the other. A type may answer by its own operator: `<` of a type parameter goes by `partial_cmp`, which leaves branches.
    fn is_below(self, other: Self) -> bool
        ensures { result ≡ lt (Self.float self) (Self.float other) }
    {
        self < other
    }

    ghost floats_law: { (xs : List Self) → map Self.float xs ≡ floats xs };

    ghost rows_law: { (xs : List (List Self)) → map (map Self.float) xs ≡ rows xs };
}

impl Real for f64 {
    ghost floats = { λ doubles. doubles };

    ghost rows = { λ doubles. doubles };

    fn is_below(self, other: f64) -> bool {
        self < other
    }

    ghost floats_law = { map-id };

    ghost rows_law = { map_rows };
}

impl Real for f32 {
    ghost floats = { λ singles. singles };

    ghost rows = { λ singles. singles };

    fn is_below(self, other: f32) -> bool {
        self < other
    }

    ghost floats_law = { map-id };

    ghost rows_law = { map_rows };
}

pub fn mul_add<T: Real>(mul_lhs: T, mul_rhs: T, addend: T) -> T
    ensures { T.float result ≡ mul_add T.format (T.float mul_lhs) (T.float mul_rhs) (T.float addend) }
{
    mul_lhs * mul_rhs + addend
}

pub fn dot4<T: Real>(weights: [T; 4], vals: [T; 4]) -> T
    ensures { T.float result ≡ dot4 T.format (T.floats weights) (T.floats vals) }
{
    let lo = mul_add(weights[1], vals[1], weights[0] * vals[0]);
    let hi = mul_add(weights[3], vals[3], weights[2] * vals[2]);
    lo + hi
}

pub fn hermite_basis<T: Real>(t: T) -> [T; 4]
    ensures { T.floats result ≡ hermite_basis T.format (T.float t) }
{
    let one = T::one();
    let two = one + one;
    let three = two + one;
    let t2 = t * t;
    let t3 = t2 * t;
    [
        mul_add(two, t3, mul_add(-three, t2, one)),
        mul_add(t, mul_add(t, t - two, one), T::zero()),
        mul_add(-two, t3, three * t2),
        mul_add(t2, t - one, T::zero()),
    ]
}

pub fn hermite_basis_derivative<T: Real>(t: T) -> [T; 4]
    ensures { T.floats result ≡ hermite_basis_derivative T.format (T.float t) }
{
    let one = T::one();
    let two = one + one;
    let three = two + one;
    let six = three + three;
    let t2 = t * t;
    [
        six * (t2 - t),
        three * t2 - (two + two) * t + one,
        six * (t - t2),
        three * t2 - two * t,
    ]
}

// Derivative weights by t, scaled to derivative weights by the query.
pub fn scale_weights<T: Real>(weights: [T; 4], scale: T) -> [T; 4]
    ensures { T.floats result ≡ scaled T.format (T.float scale) (T.floats weights) }
{
    [
        weights[0] * scale,
        weights[1] * scale,
        weights[2] * scale,
        weights[3] * scale,
    ]
}
