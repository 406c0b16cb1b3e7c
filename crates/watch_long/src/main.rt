// `watch`, on an input that is one byte too long: that of `watch_full` and one byte more.
#![tactic(auto)]

use std::io;
use std::process::ExitCode;
use watch_lib::program::run;

fn main(rt: HostRuntime) -> io::Result<ExitCode> {
    run(&rt)
}
