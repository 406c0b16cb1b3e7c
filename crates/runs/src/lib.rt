// Lists of calls on a new monitor, and the law that holds of all of them.
#![tactic(auto)]

pub mod run;
