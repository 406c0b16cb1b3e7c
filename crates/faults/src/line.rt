ghost use Rattle.faults.specs.Refusals.{of_line};

use crate::fault::Fault;
use crate::layer::Layer;

// What is wrong with a line; each case carries the line's place, counted from 1 in the bytes handed in.
#[derive(Drop, Clone, Copy, PartialEq, Eq, Debug)]
pub enum LineFault {
    // no line end within the bytes that a line may take
    Torn(usize),
    // the line departs from its keys, spaces, operator words or number form
    Form(usize),
    // a number is out of its range or not the next one, or an unused one is not 0
    Range(usize),
}

impl Fault for LineFault {
    ghost told = { of_line };

    fn number(self) -> u8 {
        match self {
            LineFault::Torn(_) => 1,
            LineFault::Form(_) => 2,
            LineFault::Range(_) => 3,
        }
    }

    fn layer(self) -> Layer {
        Layer::Line
    }

    fn place(self) -> usize {
        match self {
            LineFault::Torn(line) | LineFault::Form(line) | LineFault::Range(line) => line,
        }
    }
}
