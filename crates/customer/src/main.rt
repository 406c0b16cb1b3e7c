// What a maker of devices builds on the library, from its public contracts alone: records and a kind of label of his own, an
// alarm on a live monitor, an expectation that is followed, and what a rules text and a log decide.
#![tactic(auto)]

mod alarm;
mod deciding;
mod following;
mod halves;
mod heap;
mod labelled;
mod printing;
mod slot;
mod tried;
mod wide;

use crate::halves::HalvesRecord;
use crate::heap::HeapRecord;
use crate::printing::{
    print_alarm, print_decided, print_followed, print_labels, print_run, print_told,
};
use crate::slot::slot_table;
use crate::tried::{held, tried};
use std::io;

fn main(rt: HostRuntime) -> io::Result<()> {
    let table = match slot_table() {
        Ok(table) => table,
        Err(defect) => return println!(rt; "{defect}"),
    };
    print_followed(&rt, table, HeapRecord::new(rt.alloc(), 8)?)?;
    print_alarm(&rt, table, HalvesRecord::new())?;
    print_decided(&rt, HeapRecord::new(rt.alloc(), 8)?, 1)?;
    print_decided(&rt, HeapRecord::new(rt.alloc(), 8)?, 2)?;
    println!(rt; "record=heap labels=wide")?;
    print_run(&rt, table, HeapRecord::new(rt.alloc(), 3)?)?;
    println!(rt; "record=halves labels=wide")?;
    print_labels(&rt, table, HalvesRecord::new())?;
    println!(rt; "record=halves")?;
    print_told(&rt, tried())?;
    println!(rt; "record=held")?;
    print_told(&rt, held())
}
