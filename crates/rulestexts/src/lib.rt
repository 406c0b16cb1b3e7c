// Rules texts: a table of formulas with its rules.
#![tactic(auto)]

pub mod joins;
mod laws;
pub mod sections;
pub mod texts;
