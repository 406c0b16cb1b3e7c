// Lines of output as text.
ghost use Rattle.std.specs.Prelude.{◌≡◌, IfOk, Some, string_bytes};
ghost use Rattle.watch_lib.specs.Lines.{line_text, lines_text};
ghost use Rattle.watch_lib.specs.Printed.{Printed, PrintedOn};

use crate::following::watch_on;
use crate::lines::Line;
use crate::watch::watch;
use std::alloc::{AllocError, Global};
use std::fmt;

impl fmt::Display for Line {
    ghost output = { λ x. Some (line_text x) };

    fn fmt<W: fmt::Write>(&self, f: &mut fmt::Formatter<W>) -> fmt::Result {
        match *self {
            Line::Told { point, notice } => write!(f, "s={point} {notice}"),
            Line::Refused { number, line } => write!(f, "refused={number} line={line}"),
            Line::End { states, tally } => write!(f, "end states={states} {tally}"),
        }
    }
}

// The lines, each with its line end.
fn joined(heap: Global, lines: &[Line]) -> Result<String, AllocError>
    ensures { IfOk result (λ s. string_bytes s ≡ lines_text lines.now) }
{
    let mut text = String::new(heap);
    for line in lines {
        writeln!(text, "{line}")?;
    }
    Ok(text)
}

// What is printed of an input, as one text.
pub fn output_of(heap: Global, input: &[u8]) -> Result<String, AllocError>
    ensures { IfOk result (λ s. Printed input.now (string_bytes s)) }
{
    let lines = watch(heap, input)?;
    joined(heap, lines.as_slice())
}

// What is new of an input whose first bytes were printed before, as one text.
pub fn output_on(heap: Global, input: &[u8], seen: usize) -> Result<String, AllocError>
    ensures { IfOk result (λ s. PrintedOn input.now seen (string_bytes s)) }
{
    let lines = watch_on(heap, input, seen)?;
    joined(heap, lines.as_slice())
}
