// What a monitor answers while its record grows.
use crate::asks::*;
use crate::both::over_both;
use crate::samples::*;
use expectations::types::{Event, Standing, Verdict};
use labels::LabelKind;
use labels::dated::Dated;
use monitor::live::Monitor;
use records::growing::Growing;
use records::readable::Readable;
use sample_states::{named, plain, told};
use std::process::Abort;
use std::test::Fail;

const SECOND: [(usize, usize, Event); 4] = [
    (0, 1, Event::Fulfilling),
    (0, 2, Event::Raising),
    (2, 2, Event::Raising),
    (2, 2, Event::Fulfilling),
];

// By rule, then by raising state, a raising before its own decision; later states change nothing.
fn tells_notices<R: Growing + Drop>(rt: &impl Abort, log: R) -> Result<(), Fail> {
    let mut monitor = watched(rt, log, &[plain(1), plain(3)])?;
    notes(rt, &monitor, 2, &SECOND);
    accepts(rt, &mut monitor, plain(0));
    accepts(rt, &mut monitor, plain(0));
    notes(
        rt,
        &monitor,
        1,
        &[
            (0, 1, Event::Raising),
            (2, 1, Event::Raising),
            (2, 1, Event::Violating),
        ],
    );
    notes(rt, &monitor, 2, &SECOND);
    notes(rt, &monitor, 3, &[(0, 2, Event::Violating)]);
    notes(rt, &monitor, 4, &[]);
    Ok(())
}

// Signals 0, 1, 2, 3 in turn: what rule 0 expects of states 2, 6 and 10 comes, what it expects of 4 and 8 does not.
fn tells_tallies<R: Growing + Drop>(rt: &impl Abort, log: R) -> Result<(), Fail> {
    let mut monitor = watched(rt, log, &[])?;
    for i in 0u8..12 {
        accepts(rt, &mut monitor, plain(u32::from(i % 4)));
        for rule in 0..RULES {
            adds_up(rt, &monitor, rule)?;
        }
    }
    counts(rt, &monitor, 0, [6, 1, 3, 2]);
    counts(rt, &monitor, 1, [0, 0, 0, 0]);
    counts(rt, &monitor, 2, [6, 0, 3, 3]);
    Ok(())
}

// State 1 expects in vain; later states show the signal.
fn stays_violated<R: Growing + Drop>(rt: &impl Abort, log: R) -> Result<(), Fail> {
    let mut monitor = watched(rt, log, &[plain(1)])?;
    assert_eq!(rt; monitor.standing(0, 1, 1), Ok(Standing::Pending));
    accepts(rt, &mut monitor, plain(0));
    for last in 2..9 {
        assert_eq!(rt; monitor.standing(0, 1, 1), Ok(Standing::Pending));
        for point in 2..=last {
            assert_eq!(rt; monitor.standing(0, 1, point), Ok(Standing::Violated(2)));
        }
        counts(rt, &monitor, 0, [1, 0, 0, 1]);
        accepts(rt, &mut monitor, plain(2));
    }
    Ok(())
}

// Signal 0 is on throughout, but at no state is it known that it is on at the next.
fn never_raises<R: Growing + Drop>(rt: &impl Abort, log: R) -> Result<(), Fail> {
    let monitor = watched(rt, log, &[plain(1), plain(1), plain(1)])?;
    for state in 1..4 {
        for point in state..4 {
            assert_eq!(rt; monitor.standing(1, state, point), Ok(Standing::NotRaised));
        }
    }
    counts(rt, &monitor, 1, [0, 0, 0, 0]);
    counts(rt, &monitor, 0, [3, 1, 0, 2]);
    Ok(())
}

// Of the states up to the last, both formulas that speak of nominal 1 are decided from a point on and unknown before.
fn decided_from<R: Growing>(rt: &impl Abort, monitor: &Monitor<R>, date: usize) {
    let last = monitor.count();
    assert!(rt; last < 10);
    for state in 1..=last {
        for point in state..=last {
            let (on, off) = if point >= date {
                (Verdict::True, Verdict::False)
            } else {
                (Verdict::Unknown, Verdict::Unknown)
            };
            assert_eq!(rt; monitor.label(AT_ON, state, point), Ok(on));
            assert_eq!(rt; monitor.label(AT_OFF, state, point), Ok(off));
        }
    }
}

fn names_late<R: Growing + Drop>(rt: &impl Abort, log: R) -> Result<(), Fail> {
    let mut monitor = watched(rt, log, &[plain(3), plain(0), plain(2), plain(0), plain(2)])?;
    decided_from(rt, &monitor, 6);
    accepts(rt, &mut monitor, named(1, 1));
    decided_from(rt, &monitor, 6);
    accepts(rt, &mut monitor, plain(2));
    decided_from(rt, &monitor, 6);
    Ok(())
}

// The labels of rule 0's content, in dated numbers.
fn labels_whole<R: Growing + Drop>(rt: &impl Abort, log: R) -> Result<(), Fail> {
    let monitor = watched(rt, log, &[plain(1), plain(3), plain(0)])?;
    let mut labels = [Dated::true_from(9); 21];
    let mut work = [Dated::true_from(9); 21];
    let mut short = [Dated::true_from(9); 20];
    assert_eq!(rt;
        told(monitor.label_record(&mut labels, &mut short)),
        Err((9, 0))
    );
    assert_eq!(rt; labels[6].value(), 248);
    assert_eq!(rt; monitor.label_record(&mut labels, &mut work), Ok(3));
    assert_eq!(rt;
        [labels[6].value(), labels[7].value(), labels[8].value()],
        [255, -254, 0]
    );
    Ok(())
}

#[test]
fn notices_in_order(rt: HostRuntime) -> Result<(), Fail> {
    over_both!(&rt, 4, tells_notices)
}

#[test]
fn tallies(rt: HostRuntime) -> Result<(), Fail> {
    over_both!(&rt, 12, tells_tallies)
}

#[test]
fn violated_for_good(rt: HostRuntime) -> Result<(), Fail> {
    over_both!(&rt, 9, stays_violated)
}

#[test]
fn condition_looks_ahead(rt: HostRuntime) -> Result<(), Fail> {
    over_both!(&rt, 3, never_raises)
}

#[test]
fn late_nominal(rt: HostRuntime) -> Result<(), Fail> {
    over_both!(&rt, 7, names_late)
}

#[test]
fn whole_record(rt: HostRuntime) -> Result<(), Fail> {
    over_both!(&rt, 3, labels_whole)
}
