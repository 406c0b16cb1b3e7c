// `watch`, called as it may not be: with an argument. It prints nothing, and ends with status 2.
#![tactic(auto)]

use std::io;
use std::process::ExitCode;
use watch_lib::program::run;

fn main(rt: HostRuntime) -> io::Result<ExitCode> {
    run(&rt)
}
