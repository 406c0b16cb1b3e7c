// Which refusal fits first, and what it leaves.
use crate::logs::*;
use labelling::whole::label_whole;
use labels::LabelKind;
use labels::dated::Dated;
use logic::types::{Formula, State};
use records::rows::Rows;
use sample_states::{named, plain, referring_second, told};
use std::process::Abort;
use std::test::Fail;
use strips::Strip;

const PAIR: [Formula; 2] = [Formula::Signal(0), Formula::Not(0)];

// Labels a log in dated labels over so many label cells and working cells, of 8 at most. Arrays, as a caller without a heap
// has them.
fn tried(
    rt: &impl Abort,
    log: &[State],
    cells: usize,
    room: usize,
) -> Result<Result<usize, (u8, usize)>, Fail> {
    let table = table_of(&PAIR)?;
    let mut labels = [Dated::true_from(9); 8];
    let mut work = [Dated::true_from(9); 8];
    assert!(rt; cells <= 8 && room <= 8);
    Ok(told(label_whole(
        &table,
        &Rows::new(log),
        &mut labels[0..cells],
        &mut work[0..room],
    )))
}

// A log that is one state longer than the kind's length is refused, and without its last state it is labelled.
fn length_is<K: LabelKind + Copy>(
    rt: &impl Abort,
    log: &[State],
    labels: &mut [K],
    work: &mut [K],
    length: usize,
) -> Result<(), Fail> {
    let table = table_of(&[Formula::Signal(0)])?;
    assert_eq!(rt; log.len().checked_sub(1), Some(length));
    assert_eq!(rt;
        told(label_whole(&table, &Rows::new(log), labels, work)),
        Err((7, 0))
    );
    assert_eq!(rt;
        told(label_whole(&table, &Rows::new(&log[..length]), labels, work)),
        Ok(length)
    );
    Ok(())
}

#[test]
fn length_of_strips(rt: HostRuntime) -> Result<(), Fail> {
    let mut labels = [Strip::unknown(); 65];
    let mut work = [Strip::unknown(); 65];
    length_is(&rt, &[plain(0); 65], &mut labels, &mut work, 64)?;
    assert!(rt;
        !labels[63].read(true, 64) && labels[63].read(true, 63) && labels[64].read(true, 64)
    );
    Ok(())
}

#[test]
fn length_of_dates(rt: HostRuntime) -> Result<(), Fail> {
    let mut labels = [Dated::unknown(); 257];
    let mut work = [Dated::unknown(); 257];
    length_is(&rt, &[plain(0); 257], &mut labels, &mut work, 256)?;
    assert!(rt; labels[255].value() == -1 && labels[256].value() == 0);
    Ok(())
}

// One state below the greatest length, and at it.
#[test]
fn last_states(rt: HostRuntime) -> Result<(), Fail> {
    let table = table_of(&[Formula::Signal(0)])?;
    let mut log = [plain(0); 256];
    log[255] = plain(1);
    let mut labels = [Dated::unknown(); 256];
    let mut work = [Dated::unknown(); 256];
    assert_eq!(rt;
        told(label_whole(&table, &Rows::new(&log[..255]), &mut labels, &mut work)),
        Ok(255)
    );
    assert!(rt; labels[254].value() == -2 && labels[255].value() == 0);
    assert_eq!(rt;
        told(label_whole(&table, &Rows::new(&log), &mut labels, &mut work)),
        Ok(256)
    );
    assert!(rt; labels[254].value() == -2 && labels[255].value() == 1);
    Ok(())
}

// A log that is too long for the kind is refused for that, and not for memory that is too short.
#[test]
fn length_before_memory(rt: HostRuntime) -> Result<(), Fail> {
    let table = table_of(&PAIR)?;
    let log = [plain(0); 65];
    let mut labels = [Strip::unknown(); 8];
    let mut work = [Strip::unknown(); 8];
    assert_eq!(rt;
        told(label_whole(&table, &Rows::new(&log), &mut labels, &mut work)),
        Err((7, 0))
    );
    assert_eq!(rt;
        told(label_whole(&table, &Rows::new(&log[..64]), &mut labels, &mut work)),
        Err((9, 0))
    );
    Ok(())
}

#[test]
fn short_memory(rt: HostRuntime) -> Result<(), Fail> {
    let log = [plain(0), plain(0), plain(0)];
    assert_eq!(rt; tried(&rt, &log, 5, 8)?, Err((9, 0)));
    assert_eq!(rt; tried(&rt, &log, 8, 5)?, Err((9, 0)));
    assert_eq!(rt; tried(&rt, &log, 6, 6)?, Ok(3));
    assert_eq!(rt; tried(&rt, &[], 0, 0)?, Ok(0));
    Ok(())
}

#[test]
fn unlawful_states(rt: HostRuntime) -> Result<(), Fail> {
    assert_eq!(rt;
        tried(&rt, &[named(0, 3), plain(0), named(0, 3)], 8, 8)?,
        Err((10, 3))
    );
    assert_eq!(rt;
        tried(&rt, &[plain(0), referring_second(2, 2)], 8, 8)?,
        Err((11, 2))
    );
    assert_eq!(rt;
        tried(&rt, &[plain(0), referring_second(2, 1)], 8, 8)?,
        Ok(2)
    );
    assert_eq!(rt;
        tried(&rt, &[plain(0), referring_second(16, 1)], 8, 8)?,
        Err((11, 2))
    );
    assert_eq!(rt;
        tried(&rt, &[plain(0), referring_second(0, 1)], 8, 8)?,
        Err((11, 2))
    );
    Ok(())
}

#[test]
fn first_refusal(rt: HostRuntime) -> Result<(), Fail> {
    let both = State {
        nominal: 3,
        ..referring_second(2, 9)
    };
    assert_eq!(rt; tried(&rt, &[named(0, 3), both], 3, 8)?, Err((9, 0)));
    assert_eq!(rt; tried(&rt, &[named(0, 3), both], 8, 8)?, Err((10, 2)));
    assert_eq!(rt;
        tried(
            &rt,
            &[named(0, 3), referring_second(2, 2), named(0, 3)],
            8,
            8
        )?,
        Err((11, 2))
    );
    assert_eq!(rt; tried(&rt, &[both; 257], 0, 0)?, Err((7, 0)));
    Ok(())
}

#[test]
fn memory_after_refusal(rt: HostRuntime) -> Result<(), Fail> {
    let table = table_of(&PAIR)?;
    let log = [named(0, 3), named(0, 3)];
    let mut labels = [Dated::true_from(9); 4];
    let mut work = [Dated::false_from(9); 4];
    assert_eq!(rt;
        told(label_whole(&table, &Rows::new(&log), &mut labels, &mut work)),
        Err((10, 2))
    );
    has_values(&rt, &labels, &[248, 248, 248, 248]);
    has_values(&rt, &work, &[-248, -248, -248, -248]);
    Ok(())
}
