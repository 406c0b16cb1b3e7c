// Why the monitor's layer declines a call.
#![tactic(auto)]

ghost use Rattle.std.specs.Prelude.{Some};
ghost use Rattle.refusals.specs.Numbers.{told as told_of, refusal_text};

use faults::fault::Fault;
use faults::layer::Layer;
use std::fmt;

#[derive(Drop, Clone, Copy, PartialEq, Eq, Debug)]
pub enum Refusal {
    // The record's count of states is not the monitor's.
    ForeignRecord,
    // The states would pass 256, or the length of the label kind.
    TooManyStates,
    RecordFull,
    MemoryTooShort,
    // The nominal of this state stands on an earlier one.
    NominalTaken(usize),
    // This state has a reference of a kind above 15, one of kind 0 with a target, or one of another kind with a target that is 0
    // or not an earlier state.
    ReferenceUnfit(usize),
    // There is no such formula or rule.
    NoSuchName,
    LooseFormula,
    // The state is 0 or not accepted.
    NoSuchState,
    // The truncation point is 0, before the state, or not accepted.
    NoSuchPoint,
}

impl Fault for Refusal {
    ghost told = { told_of };

    fn number(self) -> u8 {
        match self {
            Refusal::ForeignRecord => 6,
            Refusal::TooManyStates => 7,
            Refusal::RecordFull => 8,
            Refusal::MemoryTooShort => 9,
            Refusal::NominalTaken(_) => 10,
            Refusal::ReferenceUnfit(_) => 11,
            Refusal::NoSuchName => 12,
            Refusal::LooseFormula => 13,
            Refusal::NoSuchState => 14,
            Refusal::NoSuchPoint => 15,
        }
    }

    fn layer(self) -> Layer {
        Layer::Monitor
    }

    // The state that the refusal is about, or 0.
    fn place(self) -> usize {
        match self {
            Refusal::NominalTaken(state) | Refusal::ReferenceUnfit(state) => state,
            _ => 0,
        }
    }
}

// The number, and the state that the refusal is about, or 0.
impl fmt::Display for Refusal {
    ghost output = { λ x. Some (refusal_text x) };

    fn fmt<W: fmt::Write>(&self, f: &mut fmt::Formatter<W>) -> fmt::Result {
        write!(f, "refused={} place={}", self.number(), self.place())
    }
}
