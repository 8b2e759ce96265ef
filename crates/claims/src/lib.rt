// The claims about whole lists of calls: definitions and proofs, and no function.
#![tactic(auto)]
