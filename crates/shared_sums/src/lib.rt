// Value and gradient together: specs/ has the number of four-term sums that they take, proofs/ the laws of a reduction that shares them. The crate
// has no code.
#![tactic(auto)]
