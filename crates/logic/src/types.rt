// The states of a log, the formulas of a table and its rules, as plain values.

// The most states of a log.
pub const MOST_STATES: usize = 256;

// How many signals a state has, numbered from 0.
pub const SIGNALS: u8 = 32;

// The last nominal; the first is 1.
pub const MOST_NOMINAL: u8 = 255;

// The last kind of a reference; the first is 1.
pub const MOST_KIND: u8 = 15;

// A reference of a state to a state: its kind, from 1 to 15, and the number of the state referred to. Kind 0 with target 0 is
// no reference. (On the shop floor: a link.) Two numbers, and no Option: a log may show kind 0 with a target, which has a
// refusal of its own.
#[derive(Drop, Clone, Copy, PartialEq, Eq, Debug, Default)]
pub struct Reference {
    pub kind: u8,
    pub target: u16,
}

// One state of a log: signal b is bit b of `signals`, the lowest being bit 0. A nominal names at most one state of a log, and
// 0 is no nominal, as texts write it and a state that is not held reads. (On the shop floor: a mark.)
#[derive(Drop, Clone, Copy, PartialEq, Eq, Debug, Default)]
pub struct State {
    pub signals: u32,
    pub nominal: u8,
    pub first: Reference,
    pub second: Reference,
}

// One formula of a table, over the numbers of its parts. `Variable` and `Reference` speak of the state that a `Bind` or a
// `Some` above them binds; `Reference` is a state-referencing proposition (on the shop floor: a link). Parts are numbers, and
// no boxes: texts and queries name formulas so, a part may serve several formulas, and there is no heap.
#[derive(Drop, Clone, Copy, PartialEq, Eq, Debug)]
pub enum Formula {
    True,
    Signal(u8),
    Nominal(u8),
    Not(usize),
    And(usize, usize),
    Or(usize, usize),
    Next(usize),
    Previous(usize),
    Until(usize, usize),
    Since(usize, usize),
    At(u8, usize),
    Variable,
    Reference(u8),
    Bind(usize),
    Some(u8, usize),
}

// When the condition holds, the content is expected; both are numbers of formulas.
#[derive(Drop, Clone, Copy, PartialEq, Eq, Debug, Default)]
pub struct Rule {
    pub condition: usize,
    pub content: usize,
}
