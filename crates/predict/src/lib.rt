// Modules 2 and 3: the seven neighbours of a pixel, and the fourteen predictors over them.
#![tactic(auto)]

pub mod neighbours;
pub mod predictors;
