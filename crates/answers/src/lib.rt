// What a monitor is asked and what it answers, and the law that its answers obey.
#![tactic(auto)]

pub mod laws;
pub mod types;
mod written;
