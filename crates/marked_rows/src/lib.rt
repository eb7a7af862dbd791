// The marked cases of clause 9.1: specs/ has the twelve rows, proofs/ the one lemma. The crate has no code.
#![tactic(auto)]
