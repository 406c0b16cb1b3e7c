// What the tests ask of a monitor, and what they expect of its answers.
use crate::samples::*;
use expectations::types::{Event, Notice, Tally};
use logic::types::State;
use monitor::live::Monitor;
use records::growing::Growing;
use records::readable::Readable;
use sample_states::told;
use std::process::Abort;
use std::test::Fail;

// A new monitor over a record, with these states appended.
pub(crate) fn watched<R: Growing + Drop>(
    rt: &impl Abort,
    log: R,
    states: &[State],
) -> Result<Monitor<R>, Fail> {
    let mut monitor = Monitor::new(table()?, log);
    for state in states {
        accepts(rt, &mut monitor, *state);
    }
    Ok(monitor)
}

// The state is accepted, and its number is one more than the count of states before.
pub(crate) fn accepts<R: Growing>(rt: &impl Abort, monitor: &mut Monitor<R>, state: State) {
    let number = monitor.count().checked_add(1);
    assert_eq!(rt; monitor.append(state).ok(), number);
    assert_eq!(rt; Some(monitor.count()), number);
}

// The append is refused so, and the record has as many states as before.
pub(crate) fn refuses<R: Growing>(
    rt: &impl Abort,
    monitor: &mut Monitor<R>,
    state: State,
    expected: (u8, usize),
) {
    let before = monitor.count();
    assert_eq!(rt; told(monitor.append(state)), Err(expected));
    assert_eq!(rt; monitor.count(), before);
}

// The tally of a rule is raised, pending, fulfilled and violated so often.
pub(crate) fn counts<R: Growing>(
    rt: &impl Abort,
    monitor: &Monitor<R>,
    rule: usize,
    expected: [usize; 4],
) {
    let [raised, pending, fulfilled, violated] = expected;
    let tally = Tally {
        raised,
        pending,
        fulfilled,
        violated,
    };
    assert_eq!(rt; monitor.tally(rule), Ok(tally));
}

// The notices of a point are these, each a rule, the raising state and what happened, and then there are none.
pub(crate) fn notes<R: Growing>(
    rt: &impl Abort,
    monitor: &Monitor<R>,
    point: usize,
    expected: &[(usize, usize, Event)],
) {
    for (k, &(rule, from, event)) in expected.iter().enumerate() {
        assert_eq!(rt;
            monitor.notice(point, k),
            Ok(Some(Notice { rule, from, event }))
        );
    }
    assert_eq!(rt; monitor.notice(point, expected.len()), Ok(None));
}

// Each expectation of a rule is pending, fulfilled or violated.
pub(crate) fn adds_up<R: Growing>(
    rt: &impl Abort,
    monitor: &Monitor<R>,
    rule: usize,
) -> Result<(), Fail> {
    let tally = monitor.tally(rule).map_err(|_| Fail::new("refused"))?;
    assert!(rt; tally.pending <= 256 && tally.fulfilled <= 256 && tally.violated <= 256);
    assert_eq!(rt;
        tally.raised,
        tally.pending + tally.fulfilled + tally.violated
    );
    Ok(())
}

// A formula or a rule, a state and a point, and the number with which a query of them is refused. By number, as `told` has it.
pub(crate) type Ask = (usize, usize, usize, u8);

// Each query is refused with its number, at place 0.
fn all_refused<F: Fn(usize, usize, usize) -> Option<(u8, usize)>>(
    rt: &impl Abort,
    asks: &[Ask],
    refusal: F,
)
    requires { F.IsAlwaysCallable refusal }
{
    for &(name, state, point, number) in asks {
        assert_eq!(rt; refusal(name, state, point), Some((number, 0)));
    }
}

pub(crate) fn labels_refused<R: Growing>(rt: &impl Abort, monitor: &Monitor<R>, asks: &[Ask]) {
    all_refused(rt, asks, |formula, state, point| {
        told(monitor.label(formula, state, point)).err()
    });
}

pub(crate) fn standings_refused<R: Growing>(rt: &impl Abort, monitor: &Monitor<R>, asks: &[Ask]) {
    all_refused(rt, asks, |rule, state, point| {
        told(monitor.standing(rule, state, point)).err()
    });
}
