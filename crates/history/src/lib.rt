// The weighted predictor over sequences, from opening on: theorems about the definitions of `weighted`, no code. See specs/ and
// proofs/Sequence.antt.

#![tactic(auto)]
