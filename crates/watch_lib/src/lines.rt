ghost use Rattle.std.specs.Prelude.{◌≡◌};
ghost use Rattle.watch_lib.specs.declared.lines.Line.TheVariants.{Refused};

use expectations::types::{Notice, Tally};
use faults::fault::Fault;

// One line of output.
#[derive(Drop, Clone, Copy, PartialEq, Eq, Debug)]
pub enum Line {
    // A notice of a truncation point.
    Told { point: usize, notice: Notice },
    // The number of the refusal, and the line of the input that is refused, counted from 1; 0 is the whole input. The number
    // as it is written, and no fault: a fault has a line of its own, counted from where the reader began.
    Refused { number: u8, line: usize },
    // The number of states, and the sum of all rules' tallies.
    End { states: usize, tally: Tally },
}

impl Line {
    // The line that tells a refusal, at a line of the input.
    pub(crate) fn refused<F: Fault>(fault: F, line: usize) -> Line
        ensures { result ≡ Refused (F.told fault).number line }
    {
        Line::Refused {
            number: fault.number(),
            line,
        }
    }
}
