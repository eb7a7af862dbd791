// Laws of IEEE 754 arithmetic over the format (proofs/). The crate has no code.
#![tactic(auto)]
