// Section 8 said of the calls for C: specs/ has the statements, proofs/ that what the calls leave has them. The crate has no code.
#![tactic(auto)]
