// Expectations: what becomes of a rule's expectations, from the labels of its condition and its content.
#![tactic(auto)]

pub mod laws;
pub mod reading;
pub mod types;
pub mod words;
