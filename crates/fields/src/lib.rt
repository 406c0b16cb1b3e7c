// Lines, the fields that they consist of, and the numbers and operators in those.
#![tactic(auto)]

pub mod lines;
pub mod numbers;
pub mod parts;
mod places;
pub mod values;
