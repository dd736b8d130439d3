// The tree as functions: definitions and laws, no code.
#![tactic(auto)]
