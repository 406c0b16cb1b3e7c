// Carries out one list of calls, refused ones among them, on a monitor over each kind of record, and prints each answer. Then
// the whole record is labelled, in one kind of label and in the other. Over a record that holds a state beforehand every call
// is refused.
#![tactic(auto)]

mod calls;
mod lines;
mod rule;

use crate::calls::REQUEST;
use crate::lines::print_run;
use crate::rule::reply_table;
use labels::LabelKind;
use labels::dated::Dated;
use records::change_record::ChangeRecord;
use records::growing::Growing;
use records::readable::BLANK;
use records::table::TableRecord;
use std::io;
use strips::Strip;
use table::finished::Table;

// The labels of the table's four formulas at the four states that the list leaves.
const CELLS: usize = 16;

fn print_runs(rt: &HostRuntime, table: Table) -> io::Result<()> {
    let (mut dates, mut work) = ([Dated::unknown(); CELLS], [Dated::unknown(); CELLS]);
    let (mut strips, mut masks) = ([Strip::unknown(); CELLS], [Strip::unknown(); CELLS]);
    // Room for the four states that are accepted, and more: a record may be longer than its log.
    let mut rows = [BLANK; 8];
    println!(rt; "record=table labels=dated")?;
    print_run(
        rt,
        table,
        TableRecord::new(&mut rows),
        &mut dates,
        &mut work,
    )?;
    println!(rt; "record=changes labels=strips")?;
    print_run(rt, table, ChangeRecord::new(), &mut strips, &mut masks)?;
    let mut held = ChangeRecord::new();
    let _ = held.append(REQUEST);
    println!(rt; "record=held labels=dated")?;
    print_run(rt, table, held, &mut dates, &mut work)
}

fn main(rt: HostRuntime) -> io::Result<()> {
    match reply_table() {
        Ok(table) => print_runs(&rt, table),
        Err(defect) => println!(rt; "{defect}"),
    }
}
