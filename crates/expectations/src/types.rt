// The label of a formula at a state: unknown (on the shop floor: open), or true or false from a truncation point (a cut) on.
#[derive(Drop, Clone, Copy, PartialEq, Eq, Debug)]
pub enum Label {
    Unknown,
    TrueFrom(usize),
    FalseFrom(usize),
}

// A label as one truncation point reads it.
#[derive(Drop, Clone, Copy, PartialEq, Eq, Debug)]
pub enum Verdict {
    Unknown,
    True,
    False,
}

// What has become of a rule's expectation of a state, as one truncation point reads it. The numbers are the dates of the
// decisions. (On the shop floor, pending is open.)
#[derive(Drop, Clone, Copy, PartialEq, Eq, Debug)]
pub enum Standing {
    NotRaised,
    Pending,
    Fulfilled(usize),
    Violated(usize),
}

#[derive(Drop, Clone, Copy, PartialEq, Eq, Debug)]
pub enum Event {
    Raising,
    Fulfilling,
    Violating,
}

// An event of the expectation that a rule raised at the state `from`.
#[derive(Drop, Clone, Copy, PartialEq, Eq, Debug)]
pub struct Notice {
    pub rule: usize,
    pub from: usize,
    pub event: Event,
}

// How many expectations a rule has raised, and how many of them are pending, fulfilled and violated.
#[derive(Drop, Clone, Copy, PartialEq, Eq, Debug, Default)]
pub struct Tally {
    pub raised: usize,
    pub pending: usize,
    pub fulfilled: usize,
    pub violated: usize,
}
