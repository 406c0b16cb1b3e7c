// Trace lines: one state of a log each.
#![tactic(auto)]

mod laws;
pub mod numbers;
pub mod states;
