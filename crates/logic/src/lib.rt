// The logic: states, formulas, and what it means that a formula holds.
#![tactic(auto)]

pub mod laws;
pub mod parts;
pub mod types;
