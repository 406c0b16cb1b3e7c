// Labels by hand.
use crate::logs::*;
use labelling::whole::label_whole;
use labels::LabelKind;
use labels::dated::Dated;
use logic::types::{Formula, State};
use records::cut::CutRecord;
use records::rows::Rows;
use sample_states::{named, plain, referring_second, told};
use std::test::Fail;

#[test]
fn ahead(rt: HostRuntime) -> Result<(), Fail> {
    let twice = [Formula::Signal(0), Formula::Next(0), Formula::Next(1)];
    has_labels(
        &rt,
        &twice,
        &[plain(0), plain(1), plain(0), plain(0)],
        &[-254, -253, 0, 0],
    )?;
    let once = [Formula::Signal(1), Formula::Next(0)];
    has_labels(&rt, &once, &[plain(1), plain(3), plain(0)], &[255, -254, 0])
}

#[test]
fn named_state(rt: HostRuntime) -> Result<(), Fail> {
    let formulas = [
        Formula::Signal(0),
        Formula::At(1, 0),
        Formula::Signal(1),
        Formula::Next(2),
        Formula::Until(1, 3),
    ];
    has_labels(
        &rt,
        &formulas,
        &[plain(0), plain(0), plain(2), named(1, 1)],
        &[253, 254, 0, 0],
    )
}

#[test]
fn behind(rt: HostRuntime) -> Result<(), Fail> {
    has_labels(
        &rt,
        &[Formula::True, Formula::Previous(0)],
        &[plain(0), plain(0)],
        &[-256, 255],
    )
}

// Some reference of kind 2 leads to a state.
#[test]
fn referred(rt: HostRuntime) -> Result<(), Fail> {
    let formulas = [Formula::True, Formula::Some(2, 0)];
    has_labels(
        &rt,
        &formulas,
        &[plain(0), plain(0), plain(0)],
        &[-256, -255, -254],
    )?;
    has_labels(
        &rt,
        &formulas,
        &[plain(0), plain(0), referring_second(2, 1)],
        &[-256, -255, 254],
    )?;
    has_labels(
        &rt,
        &formulas,
        &[plain(0), plain(0), referring_second(3, 1)],
        &[-256, -255, -254],
    )
}

// The state before is another one.
#[test]
fn bound(rt: HostRuntime) -> Result<(), Fail> {
    let formulas = [
        Formula::Variable,
        Formula::Not(0),
        Formula::Previous(1),
        Formula::Bind(2),
    ];
    has_labels(
        &rt,
        &formulas,
        &[plain(0), plain(0), plain(0)],
        &[-256, 255, 254],
    )
}

// The bound state, now or before, showed signal 0: the target of a reference does or does not.
#[test]
fn bound_to_target(rt: HostRuntime) -> Result<(), Fail> {
    let formulas = [
        Formula::Variable,
        Formula::Signal(0),
        Formula::And(0, 1),
        Formula::True,
        Formula::Since(3, 2),
        Formula::Some(2, 4),
    ];
    has_labels(
        &rt,
        &formulas,
        &[plain(1), plain(0), referring_second(2, 1)],
        &[-256, -255, 254],
    )?;
    has_labels(
        &rt,
        &formulas,
        &[plain(1), plain(0), referring_second(2, 2)],
        &[-256, -255, -254],
    )
}

// The first three states are labelled; the fourth, whose nominal is taken, is not among them.
#[test]
fn first_states(rt: HostRuntime) -> Result<(), Fail> {
    let table = table_of(&[Formula::Signal(0), Formula::Next(0)])?;
    let log = [named(0, 3), plain(1), plain(0), named(0, 3)];
    let first = CutRecord::new(Rows::new(&log), 3);
    let mut labels = [Dated::true_from(9); 6];
    let mut work = [Dated::true_from(9); 6];
    assert_eq!(rt;
        told(label_whole(&table, &first, &mut labels, &mut work)),
        Ok(3)
    );
    has_values(&rt, &labels, &[-256, 255, -254, 255, -254, 0]);
    Ok(())
}

// Loose formulas have no labels; the cells after the last label and the working memory after that keep what they held.
#[test]
fn memory_after(rt: HostRuntime) -> Result<(), Fail> {
    let table = table_of(&[Formula::Variable, Formula::Reference(1), Formula::Bind(0)])?;
    let log: [State; 2] = [plain(0), plain(0)];
    let mut labels = [Dated::true_from(9); 8];
    let mut work = [Dated::false_from(9); 8];
    assert_eq!(rt;
        told(label_whole(&table, &Rows::new(&log), &mut labels, &mut work)),
        Ok(2)
    );
    has_values(&rt, &labels, &[0, 0, 0, 0, 256, 255, 248, 248]);
    has_values(&rt, &work, &[0, 0, 0, 0, 0, 0, -248, -248]);
    Ok(())
}
