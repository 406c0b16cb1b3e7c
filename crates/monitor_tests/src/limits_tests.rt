// How many states a monitor takes.
use crate::asks::*;
use crate::samples::*;
use expectations::types::Verdict;
use logic::types::State;
use records::change_record::ChangeRecord;
use records::growing::Growing;
use records::readable::{BLANK, Readable};
use records::table::TableRecord;
use sample_states::{plain, referring};
use std::process::Abort;
use std::test::Fail;

// So many states are accepted, and then each is refused with a number, at place 0. By number, as `told` has it.
fn stops<R: Growing + Drop>(
    rt: &impl Abort,
    log: R,
    accepted: usize,
    number: u8,
) -> Result<(), Fail> {
    let mut monitor = watched(rt, log, &[])?;
    for _ in 0..accepted {
        accepts(rt, &mut monitor, plain(1));
    }
    assert_eq!(rt; monitor.count(), accepted);
    refuses(rt, &mut monitor, plain(1), (number, 0));
    refuses(rt, &mut monitor, referring(16, 0), (number, 0));
    if accepted > 0 {
        assert_eq!(rt;
            monitor.label(SIGNAL, accepted, accepted),
            Ok(Verdict::True)
        );
    }
    Ok(())
}

#[test]
fn states_up_to_256(rt: HostRuntime) -> Result<(), Fail> {
    let mut more = [BLANK; 257];
    stops(&rt, TableRecord::new(&mut more), 256, 7)?;
    let mut rows = [BLANK; 256];
    stops(&rt, TableRecord::new(&mut rows), 256, 7)?;
    let mut fewer = [BLANK; 255];
    stops(&rt, TableRecord::new(&mut fewer), 255, 8)
}

#[test]
fn full_records(rt: HostRuntime) -> Result<(), Fail> {
    let mut rows = [BLANK; 2];
    stops(&rt, TableRecord::new(&mut rows), 2, 8)?;
    let mut none: [State; 0] = [];
    stops(&rt, TableRecord::new(&mut none), 0, 8)?;
    stops(&rt, ChangeRecord::new(), 64, 8)
}
