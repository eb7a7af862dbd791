// Section 8 said of the grids that callers keep: specs/ has the statements, proofs/ that whatever meets the contracts of `grids` and `grids_f32`
// has them. The crate has no code.
#![tactic(auto)]
