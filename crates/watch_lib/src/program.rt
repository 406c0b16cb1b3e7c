// The program `watch`, from its arguments and its input to its output and its exit status. It stands here and not in `main`, so that
// it is run on more than one call and one input.
ghost use Rattle.std.specs.Prelude.{◌≤◌, length, IfOk};

use crate::watch::{MOST_BYTES, watch};
use std::env::FillError;
use std::io;
use std::io::{ErrorKind, Read};
use std::process::ExitCode;
use std::rt::Env;

// What is told on standard error of a call with arguments: `watch` takes none, and has printed nothing.
const USAGE: &str =
    "usage: watch < LOG    (LOG: a rules text followed by trace lines; docs/FORMATS.md)";

// The exit status of a wrong call. A failure to read or to write ends with 1, and whatever was read ends with 0.
const WRONG_CALL: u8 = 2;

// Whether there is an argument after the program's name, of whatever bytes and length.
fn has_argument(rt: &HostRuntime) -> bool {
    let mut first = [0; 1];
    !matches!(rt.arg(1, &mut first), Err(FillError::NotPresent))
}

// Reads until the buffer is full or the input ends, and answers how many bytes were read. Each read asks for all that is still
// free: of an input that comes in whole messages a shorter read would lose the rest of one.
fn read_input(rt: &HostRuntime, buffer: &mut [u8]) -> io::Result<usize>
    ensures { IfOk result (λ n. n ≤ length buffer.new) }
{
    let mut input = rt.stdin();
    let mut count = 0;
    // A bound that is never reached: a read that a signal interrupts is made again, and takes a turn too.
    for _ in 0..u64::MAX {
        if count == buffer.len() {
            break;
        }
        match input.read(&mut buffer[count..]) {
            Ok(0) => break,
            Ok(more) => count += more,
            Err(error) => {
                if error.kind() != ErrorKind::Interrupted {
                    return Err(error);
                }
            }
        }
    }
    Ok(count)
}

// Reads rules and a log from standard input, and prints what becomes of the log's expectations.
pub fn run(rt: &HostRuntime) -> io::Result<ExitCode> {
    if has_argument(rt) {
        // Where nobody can read it, the status tells.
        let _ = eprintln!(rt; "{USAGE}");
        return Ok(ExitCode::from(WRONG_CALL));
    }
    // One byte more than the longest input, so that a longer one is known for what it is.
    let most = MOST_BYTES + 1;
    prove!(most > MOST_BYTES);
    let mut input = vec![in rt.alloc(); 0; most]?;
    let count = read_input(rt, &mut input)?;
    let lines = watch(rt.alloc(), &input[..count])?;
    for line in &lines {
        println!(rt; "{line}")?;
    }
    Ok(ExitCode::SUCCESS)
}
