// Labels of all states of a record at all formulas of a table.
#![tactic(auto)]

mod binders;
mod job;
mod plain;
mod rows;
mod wants;
pub mod whole;
