ghost use Rattle.bench_calls.specs.Watching.{Left, Wrote};

use crate::memory::put;
use std::alloc::Global;
use watch_lib::written::output_of;

// What is answered in place of a count where the output is longer than the memory that was lent. No count is as great: no memory
// is so long.
const NO_ROOM: usize = usize::MAX;

// What is answered in place of a count where there is no memory to make the output in.
const NO_MEMORY: usize = usize::MAX - 1;

// Puts an output that was made at the beginning of the memory. A function of its own, since its contract leaves no third answer.
fn put_output(bytes: &[u8], output: &mut [u8]) -> usize
    ensures { Left bytes.now output.old result output.new }
{
    put(bytes, output).unwrap_or(NO_ROOM)
}

// Puts what `watch` prints of the input at the beginning of the output, and answers how many bytes that is, or which of the two
// is missing. A number alone, since it crosses to a caller in another language.
#[unsafe(no_mangle)]
pub extern "C" fn bench_watch(heap: Global, input: &[u8], output: &mut [u8]) -> usize
    ensures { Wrote input.now output.old result output.new }
{
    match output_of(heap, input) {
        Ok(text) => put_output(text.as_bytes(), output),
        Err(_) => NO_MEMORY,
    }
}
