// Tests and what they say, for the definitions of all crates (specs/Deciding). There is no code here.
#![tactic(auto)]
