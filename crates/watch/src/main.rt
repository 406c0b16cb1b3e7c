// Reads rules and a log from standard input, and prints what becomes of the log's expectations.
#![tactic(auto)]

use std::io;
use std::process::ExitCode;
use watch_lib::program::run;

fn main(rt: HostRuntime) -> io::Result<ExitCode> {
    run(&rt)
}
