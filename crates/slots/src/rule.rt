// The rule of the slot: when it is taken, it is expected to be freed before it is taken again.
ghost use Rattle.slots.specs.Slots.{SlotTable};

use logic::types::{Formula, Rule};
use table::defects::Defect;
use table::finished::Table;

// The signal of a state at which the slot is taken, and that of one at which it is freed.
pub const TAKE: u8 = 0;

pub const FREE: u8 = 1;

// The number of the table's one rule, and that of its content among the formulas.
pub const RULE: usize = 0;

pub const CONTENT: usize = 4;

// The table with this rule alone: `signal TAKE`, and then `next ((not TAKE) until FREE)`.
pub fn slot_table() -> Result<Table, Defect>
    ensures { SlotTable result }
{
    Table::of(
        &[
            Formula::Signal(TAKE),
            Formula::Signal(FREE),
            Formula::Not(0),
            Formula::Until(2, 1),
            Formula::Next(3),
        ],
        &[Rule {
            condition: 0,
            content: CONTENT,
        }],
    )
}
