// A table with all fifteen operators.
ghost use Rattle.kinds_agree.specs.Logs.{FullTable};

use logic::types::{Formula, Rule};
use table::defects::Defect;
use table::finished::Table;

const FORMULAS: [Formula; 22] = [
    Formula::True,
    Formula::Signal(0),
    Formula::Signal(1),
    Formula::Nominal(1),
    Formula::Not(1),
    Formula::And(1, 2),
    Formula::Or(1, 3),
    Formula::Next(1),
    Formula::Previous(2),
    Formula::Until(1, 2),
    Formula::Since(2, 1),
    Formula::At(1, 7),
    Formula::Variable,
    Formula::Reference(1),
    // A state from here on refers to the bound one, and it may be this one.
    Formula::Until(0, 13),
    Formula::Bind(14),
    // The bound state, here or before, shows signal 0.
    Formula::And(12, 1),
    Formula::Since(0, 16),
    Formula::Some(1, 17),
    Formula::Until(7, 11),
    Formula::Not(9),
    Formula::Next(19),
];

pub fn full_table() -> Result<Table, Defect>
    ensures { FullTable result }
{
    Table::of(
        &FORMULAS,
        &[Rule {
            condition: 1,
            content: 9,
        }],
    )
}
