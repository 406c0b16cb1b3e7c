// The calls that a benchmark in plain Rust links: each hands a text to the library's calls, and numbers back.
#![tactic(auto)]

mod appending;
mod gathering;
mod in_dates;
mod in_strips;
mod labelled;
mod memory;
mod outcome;
mod readers;
mod watching;
