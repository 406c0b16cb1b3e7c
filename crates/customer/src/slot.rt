// The rule that a slot is freed at the state after it is taken, and a log of it.
ghost use Rattle.customer.specs.Slot.{SlotTable};

use logic::types::{Formula, Rule, State};
use records::readable::BLANK;
use table::defects::Defect;
use table::finished::Table;

// The signal of a state at which the slot is taken, and that of one at which it is freed.
const TAKE: u8 = 0;

const FREE: u8 = 1;

// The number of the table's one rule, and that of its content among the formulas.
pub const RULE: usize = 0;

pub const CONTENT: usize = 2;

pub const FORMULAS: usize = 3;

pub const TAKEN: State = State {
    signals: 1,
    ..BLANK
};

pub const FREED: State = State {
    signals: 2,
    ..BLANK
};

// The slot that is taken at state 3 is taken again at state 4.
pub const LOG: [State; 5] = [TAKEN, FREED, TAKEN, TAKEN, FREED];

// The same rule as a text.
pub const TEXT: &[u8] =
    b"formulas=3\nf=0 op=signal a=0 b=0\nf=1 op=signal a=1 b=0\nf=2 op=next a=1 b=0\nrules=1\nr=0 when=0 expect=2\n";

pub fn slot_table() -> Result<Table, Defect>
    ensures { SlotTable result }
{
    Table::of(
        &[
            Formula::Signal(TAKE),
            Formula::Signal(FREE),
            Formula::Next(1),
        ],
        &[Rule {
            condition: 0,
            content: CONTENT,
        }],
    )
}
