// What is new of a log that grows.
ghost use Rattle.std.specs.Prelude.{IfOk};
ghost use Rattle.watch_lib.specs.WatchedOn.{WatchedOn};

use crate::lines::Line;
use crate::watch::{MOST_BYTES, watch};
use std::alloc::{AllocError, Global};

// The lines that a program which follows a growing log has still to print: `seen` is how many bytes the log had when it printed
// last, and the last line that it printed then, which told what was at the end, is the one that they replace.
pub fn watch_on(heap: Global, input: &[u8], seen: usize) -> Result<Vec<Line>, AllocError>
    ensures { IfOk result (λ v. WatchedOn input.now seen v.items) }
{
    let lines = watch(heap, input)?;
    if input.len() > MOST_BYTES {
        return Ok(lines);
    }
    let printed = watch(heap, &input[..seen.min(input.len())])?;
    Vec::from_slice(heap, &lines.as_slice()[printed.len() - 1..])
}
