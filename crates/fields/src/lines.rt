ghost use Rattle.std.specs.Prelude.{◌≡◌, ◌+◌, length};
ghost use Rattle.std.specs.Fn.{FnOnceReturnsAt};
ghost use Rattle.fields.specs.Reads.{FindsLine, Gives, ReadsLine};

use crate::places::place_of;
use faults::line::LineFault;

const LINE_END: u8 = b'\n';

const LINE_LIMIT: usize = 80;

// The first line of a text, without the byte that ends it; `place` is the line's, for a refusal. It stays a parameter beside
// the text, here and in the readers: only a refusal names it, and each caller counts it in its own way.
pub fn first_line(text: &[u8], place: usize) -> Result<&[u8], LineFault>
    ensures { FindsLine text.now place result }
{
    let front = &text[..text.len().min(LINE_LIMIT + 1)];
    let n = place_of(front, LINE_END).ok_or(LineFault::Torn(place))?;
    Ok(&text[..n])
}

// What a line shows, and how many bytes the line takes. A count and not the rest: how many bytes a text takes is what a
// reader answers.
#[derive(Drop, Clone, Copy, PartialEq, Eq, Debug)]
pub struct Taken<T> {
    pub value: T,
    pub used: usize,
}

// How many bytes a line takes with the byte that ends it.
pub fn bytes_of(line: &[u8]) -> usize
    ensures { result ≡ length line.now + 1 }
{
    line.len() + 1
}

// What a text's first line shows, by its form and then by its ranges; `place` is the line's, for a refusal.
pub fn read_line<N: Drop, T: Drop, F: FnOnce(&[u8]) -> Option<N>, G: FnOnce(N) -> Option<T>>(
    text: &[u8],
    place: usize,
    form: F,
    range: G,
) -> Result<Taken<T>, LineFault>
    requires form { F.IsAlwaysCallable form }
    requires range { G.IsAlwaysCallable range }
    ensures { ReadsLine (FnOnceReturnsAt F.FnOnce form) (Gives G.FnOnce range) text.now place result }
{
    let line = first_line(text, place)?;
    let shown = form(line).ok_or(LineFault::Form(place))?;
    let value = range(shown).ok_or(LineFault::Range(place))?;
    Ok(Taken {
        value,
        used: bytes_of(line),
    })
}
