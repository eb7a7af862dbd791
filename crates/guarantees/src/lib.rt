// What is guaranteed of the calls (specs/Statements.antt), and that the definitions give it (proofs/). The functions that make the calls stand
// in regular_guarantees and rectilinear_guarantees.
#![tactic(auto)]

use multicubic::{Answer, GradientAnswer, Marked, Outcome};

// What two tables answer to a query.
#[derive(Clone, Copy)]
pub struct TwoTables<T> {
    pub value: Marked<Answer<T>>,
    pub gradient: Marked<GradientAnswer<T>>,
    pub other_value: Marked<Answer<T>>,
    pub other_gradient: Marked<GradientAnswer<T>>,
}

// The outcomes of `interp` on two tables.
#[derive(Clone, Copy)]
pub struct TwoOutcomes {
    pub outcome: Outcome,
    pub other_outcome: Outcome,
}
