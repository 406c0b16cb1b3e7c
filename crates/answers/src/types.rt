use expectations::types::{Notice, Standing, Tally, Verdict};
use logic::types::State;

// One call of a monitor.
#[derive(Drop, Clone, Copy, PartialEq, Eq, Debug)]
pub enum Call {
    Append(State),
    // The label of a formula at a state as a truncation point reads it.
    LabelAt(usize, usize, usize),
    // The standing of a rule's expectation of a state at a truncation point.
    StandingAt(usize, usize, usize),
    // The tally of a rule.
    TallyOf(usize),
    // The notice of a truncation point with a number, counted from 0.
    NoticeOf(usize, usize),
}

// What a monitor answers to a call that it does not refuse.
#[derive(Drop, Clone, Copy, PartialEq, Eq, Debug)]
pub enum Answer {
    // The number of the state that was appended.
    Number(usize),
    Reads(Verdict),
    Stands(Standing),
    Counts(Tally),
    // The notice, if the truncation point has one with that number.
    Tells(Option<Notice>),
}
