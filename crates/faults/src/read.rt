ghost use Rattle.std.specs.Prelude.{◌≡◌, Some};
ghost use Rattle.faults.specs.Refusals.{refusal, fault_text};
ghost use Rattle.faults.specs.declared.read.ReadFault.TheVariants.{Line, Table};

use crate::fault::Fault;
use crate::layer::Layer;
use crate::line::LineFault;
use crate::table::TableFault;
use std::fmt;

// Why a reader refuses a text.
#[derive(Drop, Clone, Copy, PartialEq, Eq, Debug)]
pub enum ReadFault {
    Line(LineFault),
    Table(TableFault),
}

impl From<LineFault> for ReadFault {
    ghost from_gives = { λ e r. r ≡ Line e };

    fn from(e: LineFault) -> ReadFault {
        ReadFault::Line(e)
    }
}

impl From<TableFault> for ReadFault {
    ghost from_gives = { λ e r. r ≡ Table e };

    fn from(e: TableFault) -> ReadFault {
        ReadFault::Table(e)
    }
}

// Each case passes the questions on.
impl Fault for ReadFault {
    ghost told = { refusal };

    fn number(self) -> u8 {
        match self {
            ReadFault::Line(fault) => fault.number(),
            ReadFault::Table(fault) => fault.number(),
        }
    }

    fn layer(self) -> Layer {
        match self {
            ReadFault::Line(fault) => fault.layer(),
            ReadFault::Table(fault) => fault.layer(),
        }
    }

    fn place(self) -> usize {
        match self {
            ReadFault::Line(fault) => fault.place(),
            ReadFault::Table(fault) => fault.place(),
        }
    }
}

// The number, and the line that is refused.
impl fmt::Display for ReadFault {
    ghost output = { λ x. Some (fault_text x) };

    fn fmt<W: fmt::Write>(&self, f: &mut fmt::Formatter<W>) -> fmt::Result {
        write!(f, "refused={} line={}", self.number(), self.place())
    }
}
