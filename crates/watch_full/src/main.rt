// `watch`, on an input of just as many bytes as it takes: 256 states, and then more, the first of which is refused.
#![tactic(auto)]

use std::io;
use std::process::ExitCode;
use watch_lib::program::run;

fn main(rt: HostRuntime) -> io::Result<ExitCode> {
    run(&rt)
}
