// What the walks by hand share: laws for proofs, no code.
#![tactic(auto)]
