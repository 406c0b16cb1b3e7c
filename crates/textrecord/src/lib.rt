// The text record: the states of a trace text, read straight from its bytes.
#![tactic(auto)]

mod laws;
pub mod scans;
pub mod text;
