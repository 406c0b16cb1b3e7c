// The live monitor: while a record grows, which expectations are raised, pending, fulfilled and violated.
#![tactic(auto)]

pub mod book;
pub mod calls;
mod following;
mod law;
pub mod live;
mod reading;
