// The table of the tests.
use logic::types::{Formula, Rule};
use std::test::Fail;
use table::finished::Table;

pub(crate) const SIGNAL: usize = 0;

pub(crate) const LOOSE: usize = 3;

pub(crate) const AT_ON: usize = 4;

pub(crate) const AT_OFF: usize = 5;

pub(crate) const FORMULAS: usize = 7;

pub(crate) const RULES: usize = 3;

// Where the state with nominal 1 shows signal 0 and not signal 1, `AT_ON` comes true and `AT_OFF` false.
const LIST: [Formula; 7] = [
    Formula::Signal(0),
    Formula::Signal(1),
    Formula::Next(1),
    Formula::Variable,
    Formula::At(1, 0),
    Formula::At(1, 1),
    Formula::Next(0),
];

// Signal 0 calls for signal 1 at the next state, by rule 0, and at once, by rule 2. The condition of rule 1 looks ahead.
const LIST_OF_RULES: [Rule; RULES] = [
    Rule {
        condition: 0,
        content: 2,
    },
    Rule {
        condition: 6,
        content: 0,
    },
    Rule {
        condition: 0,
        content: 1,
    },
];

pub(crate) fn table() -> Result<Table, Fail> {
    Table::of(&LIST, &LIST_OF_RULES).map_err(|_| Fail::new("no table"))
}
