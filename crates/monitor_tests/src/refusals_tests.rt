// Which refusal fits first, and what it leaves.
use crate::asks::*;
use crate::both::over_both;
use crate::samples::*;
use labels::LabelKind;
use labels::dated::Dated;
use logic::types::State;
use monitor::live::Monitor;
use records::growing::Growing;
use records::readable::Readable;
use sample_states::{named, plain, referring, referring_second, told};
use std::process::Abort;
use std::test::Fail;

// References that state 2 may not have: of a kind above 15, of none with a target, and to no state, itself and a later one.
const UNFIT: [(u8, u16); 6] = [(16, 1), (0, 1), (1, 0), (1, 2), (15, 2), (1, 3)];

fn refuses_references<R: Growing + Drop>(rt: &impl Abort, log: R) -> Result<(), Fail> {
    let mut monitor = watched(rt, log, &[])?;
    refuses(rt, &mut monitor, referring(1, 1), (11, 1));
    accepts(rt, &mut monitor, plain(1));
    for (kind, target) in UNFIT {
        refuses(rt, &mut monitor, referring(kind, target), (11, 2));
        refuses(rt, &mut monitor, referring_second(kind, target), (11, 2));
    }
    counts(rt, &monitor, 0, [1, 1, 0, 0]);
    accepts(rt, &mut monitor, referring(15, 1));
    accepts(rt, &mut monitor, referring_second(1, 2));
    Ok(())
}

fn refuses_nominals<R: Growing + Drop>(rt: &impl Abort, log: R) -> Result<(), Fail> {
    let mut monitor = watched(rt, log, &[named(1, 255), plain(0), named(0, 3)])?;
    refuses(rt, &mut monitor, named(0, 255), (10, 4));
    refuses(rt, &mut monitor, named(0, 3), (10, 4));
    let both = State {
        nominal: 3,
        ..referring(16, 1)
    };
    refuses(rt, &mut monitor, both, (10, 4));
    counts(rt, &monitor, 0, [1, 0, 0, 1]);
    accepts(rt, &mut monitor, named(0, 4));
    Ok(())
}

// Each argument just out of its range, and the first refusal that fits.
fn refuses_queries<R: Growing + Drop>(rt: &impl Abort, log: R) -> Result<(), Fail> {
    let monitor = watched(rt, log, &[plain(1), plain(0)])?;
    labels_refused(
        rt,
        &monitor,
        &[
            (FORMULAS, 1, 1, 12),
            (FORMULAS, 0, 0, 12),
            (LOOSE, 1, 1, 13),
            (LOOSE, 0, 0, 13),
        ],
    );
    labels_refused(
        rt,
        &monitor,
        &[(0, 0, 0, 14), (0, 0, 1, 14), (0, 3, 3, 14), (0, 3, 2, 14)],
    );
    labels_refused(rt, &monitor, &[(0, 1, 0, 15), (0, 2, 1, 15), (0, 2, 3, 15)]);
    assert!(rt; monitor.label(0, 2, 2).is_ok());
    standings_refused(
        rt,
        &monitor,
        &[
            (RULES, 1, 1, 12),
            (RULES, 0, 0, 12),
            (0, 0, 0, 14),
            (0, 3, 3, 14),
        ],
    );
    standings_refused(rt, &monitor, &[(0, 1, 0, 15), (0, 2, 1, 15), (0, 2, 3, 15)]);
    assert!(rt; monitor.standing(2, 2, 2).is_ok());
    assert_eq!(rt; told(monitor.tally(RULES)), Err((12, 0)));
    assert_eq!(rt; told(monitor.notice(0, 0)), Err((15, 0)));
    assert_eq!(rt; told(monitor.notice(3, 0)), Err((15, 0)));
    Ok(())
}

fn starts_empty<R: Growing + Drop>(rt: &impl Abort, log: R) -> Result<(), Fail> {
    let monitor = watched(rt, log, &[])?;
    labels_refused(
        rt,
        &monitor,
        &[
            (FORMULAS, 1, 1, 12),
            (LOOSE, 1, 1, 13),
            (0, 1, 1, 14),
            (0, 0, 0, 14),
        ],
    );
    standings_refused(
        rt,
        &monitor,
        &[(RULES, 1, 1, 12), (0, 1, 1, 14), (0, 0, 0, 14)],
    );
    for rule in 0..RULES {
        counts(rt, &monitor, rule, [0, 0, 0, 0]);
    }
    assert_eq!(rt; told(monitor.tally(RULES)), Err((12, 0)));
    assert_eq!(rt; told(monitor.notice(0, 0)), Err((15, 0)));
    assert_eq!(rt; told(monitor.notice(1, 0)), Err((15, 0)));
    Ok(())
}

// A record that holds a state before the monitor has one.
fn refuses_foreign<R: Growing + Drop>(rt: &impl Abort, log: R) -> Result<(), Fail> {
    let mut record = log;
    assert!(rt; record.append(plain(5)).is_ok());
    let mut monitor = Monitor::new(table()?, record);
    refuses(rt, &mut monitor, plain(0), (6, 0));
    refuses(rt, &mut monitor, referring(16, 0), (6, 0));
    labels_refused(
        rt,
        &monitor,
        &[(0, 1, 1, 6), (FORMULAS, 0, 0, 6), (LOOSE, 1, 1, 6)],
    );
    standings_refused(rt, &monitor, &[(0, 1, 1, 6), (RULES, 0, 0, 6)]);
    assert_eq!(rt; told(monitor.tally(0)), Err((6, 0)));
    assert_eq!(rt; told(monitor.tally(RULES)), Err((6, 0)));
    assert_eq!(rt; told(monitor.notice(1, 0)), Err((6, 0)));
    let mut labels = [Dated::true_from(9); 7];
    let mut work = [Dated::true_from(9); 7];
    assert_eq!(rt;
        told(monitor.label_record(&mut labels, &mut work)),
        Err((6, 0))
    );
    assert_eq!(rt; monitor.state(1).signals, 5);
    Ok(())
}

#[test]
fn unfit_references(rt: HostRuntime) -> Result<(), Fail> {
    over_both!(&rt, 3, refuses_references)
}

#[test]
fn nominals_twice(rt: HostRuntime) -> Result<(), Fail> {
    over_both!(&rt, 4, refuses_nominals)
}

#[test]
fn queries_out_of_range(rt: HostRuntime) -> Result<(), Fail> {
    over_both!(&rt, 3, refuses_queries)
}

#[test]
fn queries_of_no_state(rt: HostRuntime) -> Result<(), Fail> {
    over_both!(&rt, 1, starts_empty)
}

#[test]
fn foreign_records(rt: HostRuntime) -> Result<(), Fail> {
    over_both!(&rt, 1, refuses_foreign)
}
