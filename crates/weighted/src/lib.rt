// Module 4: the weighted predictor's state and its lent memory.
#![tactic(auto)]

mod memory;
pub mod saving;
pub mod state;
