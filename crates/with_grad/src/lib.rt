// The answer of the call that gives value and gradient together.
#![tactic(auto)]

ghost use Rattle.shared_sums.specs.Internal.{RefusedBy};

use counted_sums::{Sums, none};
use multicubic::{Answer, Marks, Outcome, answered, unmarked};

// The value or the refusal, beside its marks; the gradient, +0 past the axis count and on refusal; the four-term sums that were taken, none on refusal.
#[derive(Clone, Copy)]
pub struct ValueAndGradient<T> {
    pub answer: Answer<T>,
    pub marks: [Marks; 4],
    pub gradient: [T; 4],
    pub sums: Sums,
}

// What a refusal answers.
pub fn refused(outcome: Outcome) -> ValueAndGradient<f64>
    ensures { RefusedBy outcome result.answer result.gradient result.marks result.sums.taken }
{
    ValueAndGradient {
        answer: answered(outcome, 0.0),
        marks: unmarked(),
        gradient: [0.0; 4],
        sums: none(),
    }
}
