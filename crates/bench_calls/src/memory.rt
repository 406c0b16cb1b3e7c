ghost use Rattle.bench_calls.specs.Memory.{Put};

// Writes bytes over the beginning of the memory and answers how many there are, if there is room for them.
pub(crate) fn put(bytes: &[u8], memory: &mut [u8]) -> Option<usize>
    ensures { Put bytes.now memory.old result memory.new }
{
    let n = bytes.len();
    if n > memory.len() {
        return None;
    }
    memory[..n].copy_from_slice(bytes);
    Some(n)
}
