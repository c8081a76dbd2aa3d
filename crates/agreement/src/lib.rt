// Demand 3, second half: a crate without code, so that wrong versions of the walks do not check it again.

#![tactic(auto)]
