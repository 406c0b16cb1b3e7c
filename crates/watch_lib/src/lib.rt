// What `watch` prints of a rules text and the trace lines that follow it.
#![tactic(auto)]

mod ends;
pub mod following;
pub mod lines;
mod points;
pub mod program;
mod steps;
pub mod watch;
mod watcher;
pub mod written;
