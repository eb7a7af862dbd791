// f32: written by tools/width from crates/with_grad/src/lib.rt; what has no float is called there.
// The answer of the call that gives value and gradient together.
#![tactic(auto)]

ghost use Rattle.shared_sums.specs.Internal.{RefusedBy};

use counted_sums::none;
use multicubic::{Outcome, answered, unmarked};
use with_grad::ValueAndGradient;

// What a refusal answers.
pub fn refused(outcome: Outcome) -> ValueAndGradient<f32>
    ensures { RefusedBy outcome result.answer result.gradient result.marks result.sums.taken }
{
    ValueAndGradient {
        answer: answered(outcome, 0.0),
        marks: unmarked(),
        gradient: [0.0; 4],
        sums: none(),
    }
}
