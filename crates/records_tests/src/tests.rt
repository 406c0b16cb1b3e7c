use crate::samples::*;
use logic::types::State;
use records::change_record::ChangeRecord;
use records::cut::CutRecord;
use records::growing::Growing;
use records::readable::{BLANK, Readable};
use records::rows::Rows;
use records::table::TableRecord;

#[test]
fn table_record_fills(rt: HostRuntime) {
    let mut rows = [BLANK; 5];
    let mut record = TableRecord::new(&mut rows);
    fills(&rt, &mut record, 8);
    holds(&rt, &record, 5);
}

#[test]
fn table_record_starts_empty_over_filled_rows(rt: HostRuntime) {
    let mut rows = [sample(7); 5];
    let mut record = TableRecord::new(&mut rows);
    holds(&rt, &record, 0);
    fills(&rt, &mut record, 3);
    holds(&rt, &record, 3);
}

#[test]
fn table_record_of_no_rows_is_full(rt: HostRuntime) {
    let mut rows: [State; 0] = [];
    let mut record = TableRecord::new(&mut rows);
    fills(&rt, &mut record, 2);
    holds(&rt, &record, 0);
}

#[test]
fn change_record_fills(rt: HostRuntime) {
    let mut record = ChangeRecord::new();
    assert_eq!(rt; record.capacity(), 64);
    fills(&rt, &mut record, 70);
    holds(&rt, &record, 64);
}

#[test]
fn cut_records_hold_the_first_states(rt: HostRuntime) {
    let rows = [sample(0), sample(1), sample(2), sample(3), sample(4)];
    holds(&rt, &CutRecord::new(Rows::new(&rows), 0), 0);
    holds(&rt, &CutRecord::new(Rows::new(&rows), 3), 3);
    holds(&rt, &CutRecord::new(Rows::new(&rows), 5), 5);
    holds(&rt, &CutRecord::new(Rows::new(&rows), 9), 5);
    holds(
        &rt,
        &CutRecord::new(CutRecord::new(Rows::new(&rows), 4), 2),
        2,
    );
}

#[test]
fn cut_records_stand_over_growing_ones(rt: HostRuntime) {
    let mut changes = ChangeRecord::new();
    fills(&rt, &mut changes, 20);
    holds(&rt, &CutRecord::new(changes, 11), 11);
    let mut rows = [BLANK; 6];
    let mut table = TableRecord::new(&mut rows);
    fills(&rt, &mut table, 4);
    holds(&rt, &CutRecord::new(table, 5), 4);
}
