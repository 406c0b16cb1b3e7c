ghost use Rattle.faults.specs.Refusals.{of_table};

use crate::fault::Fault;
use crate::layer::Layer;

// What is wrong with the formula or the rule that a line adds to a table; each case carries the line's place.
#[derive(Drop, Clone, Copy, PartialEq, Eq, Debug)]
pub enum TableFault {
    // a part is not below its formula, or a rule names no formula
    Dangling(usize),
    // a rule names a loose formula
    Loose(usize),
}

impl Fault for TableFault {
    ghost told = { of_table };

    fn number(self) -> u8 {
        match self {
            TableFault::Dangling(_) => 4,
            TableFault::Loose(_) => 5,
        }
    }

    fn layer(self) -> Layer {
        Layer::Table
    }

    fn place(self) -> usize {
        match self {
            TableFault::Dangling(line) | TableFault::Loose(line) => line,
        }
    }
}
