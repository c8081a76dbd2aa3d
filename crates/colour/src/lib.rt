// Module 9: planes as packed rows, and colour restore.
#![tactic(auto)]

pub mod restore;
pub mod rows;
