// What is guaranteed of the call that gives value and gradient together (specs/Together.antt), and that the definitions give it (proofs/). The
// functions that make the calls stand in regular_with_grad_guarantees and rectilinear_with_grad_guarantees.
#![tactic(auto)]

use multicubic::{Answer, GradientAnswer, Marked};
use with_grad::ValueAndGradient;

// What two tables answer to a query.
#[derive(Clone, Copy)]
pub struct TwoTogether<T> {
    pub own: ValueAndGradient<T>,
    pub other: ValueAndGradient<T>,
}

// What one table answers to a query, by the two calls apart and by the one.
#[derive(Clone, Copy)]
pub struct ApartAndTogether<T> {
    pub value: Marked<Answer<T>>,
    pub gradient: Marked<GradientAnswer<T>>,
    pub both: ValueAndGradient<T>,
}
