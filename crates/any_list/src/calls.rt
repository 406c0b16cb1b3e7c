// The list of calls, and the states that it appends.
use answers::types::Call;
use logic::types::{Reference, State};
use records::readable::BLANK;

pub const REQUEST: State = State {
    signals: 1,
    ..BLANK
};

const REPLY: State = State {
    signals: 2,
    ..BLANK
};

// A request and a reply that have the same nominal.
const NAMED_REQUEST: State = State {
    nominal: 7,
    ..REQUEST
};

const NAMED_REPLY: State = State {
    nominal: 7,
    ..REPLY
};

// A reply that refers to state 1, and one that refers to state 2, which is itself when it comes second.
const REPLY_TO_FIRST: State = State {
    first: Reference { kind: 2, target: 1 },
    ..REPLY
};

const REPLY_TO_SECOND: State = State {
    first: Reference { kind: 2, target: 2 },
    ..REPLY
};

// How many calls there are.
pub const CALL_COUNT: usize = 24;

pub const CALLS: [Call; CALL_COUNT] = [
    Call::LabelAt(0, 1, 1),
    Call::NoticeOf(1, 0),
    Call::Append(NAMED_REQUEST),
    Call::Append(NAMED_REPLY),
    Call::Append(REPLY_TO_SECOND),
    Call::LabelAt(2, 1, 1),
    Call::StandingAt(0, 1, 1),
    Call::Append(REPLY_TO_FIRST),
    Call::LabelAt(2, 1, 2),
    Call::LabelAt(2, 1, 1),
    Call::LabelAt(0, 3, 3),
    Call::LabelAt(0, 2, 1),
    Call::LabelAt(3, 1, 1),
    Call::LabelAt(4, 1, 1),
    Call::TallyOf(1),
    Call::Append(REQUEST),
    Call::Append(REQUEST),
    Call::NoticeOf(4, 0),
    Call::NoticeOf(4, 1),
    Call::NoticeOf(4, 2),
    Call::StandingAt(0, 1, 4),
    Call::StandingAt(0, 2, 4),
    Call::StandingAt(0, 3, 4),
    Call::TallyOf(0),
];
