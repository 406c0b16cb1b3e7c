// The rule that a request is replied to at the next state.
ghost use Rattle.any_list.specs.Replies.{ReplyTable};

use logic::types::{Formula, Rule};
use table::defects::Defect;
use table::finished::Table;

// The signal of a request, and that of a reply.
const ASKED: u8 = 0;

const REPLIED: u8 = 1;

// The number of its content among the formulas.
const CONTENT: usize = 2;

// The table with this rule, and with a loose formula that no rule has.
pub fn reply_table() -> Result<Table, Defect>
    ensures { ReplyTable result }
{
    Table::of(
        &[
            Formula::Signal(ASKED),
            Formula::Signal(REPLIED),
            Formula::Next(1),
            Formula::Variable,
        ],
        &[Rule {
            condition: 0,
            content: CONTENT,
        }],
    )
}
