// One label of a log, as text.
ghost use Rattle.std.specs.Prelude.{◌≡◌, Some};
ghost use Rattle.published.specs.Rows.{words_before, row_text};

use expectations::types::Label;
use std::fmt;

// The label of a formula at a state of a log of so many states.
#[derive(Drop, Clone, Copy)]
pub struct Row {
    pub states: usize,
    pub formula: usize,
    pub state: usize,
    pub label: Label,
}

// What stands before the date of a decision: whether the label was unknown until then.
fn open_before(state: usize, date: usize) -> &'static str
    ensures { result.now ≡ words_before state date }
{
    if state < date { "open, " } else { "" }
}

impl fmt::Display for Row {
    ghost output = { λ x. Some (row_text x) };

    fn fmt<W: fmt::Write>(&self, f: &mut fmt::Formatter<W>) -> fmt::Result {
        let Row {
            states,
            formula,
            state,
            label,
        } = *self;
        write!(f, "states={states} f={formula} s={state} ")?;
        match label {
            Label::Unknown => write!(f, "open"),
            Label::TrueFrom(date) => write!(f, "{}true from {date}", open_before(state, date)),
            Label::FalseFrom(date) => write!(f, "{}false from {date}", open_before(state, date)),
        }
    }
}
