// Worked examples of the paper that defines truncated semantics, on a live monitor. Each log is a rules text followed by trace
// lines; the states are appended one by one, and the labels of some formulas are printed state by state.
#![tactic(auto)]

mod asking;
mod rows;

use crate::asking::label_of;
use crate::rows::Row;
use logic::types::MOST_STATES;
use monitor::live::Monitor;
use records::growing::Growing;
use records::readable::{BLANK, Readable};
use records::table::TableRecord;
use rulestexts::texts::read_rules_text;
use std::{fs, io};
use textrecord::text::TextRecord;

#[derive(Drop, Clone, Copy)]
struct Example {
    name: &'static str,
    // The formulas whose labels are printed.
    formulas: &'static [usize],
    // Whether they are printed after each state, and not only after the last one.
    each: bool,
}

const EXAMPLES: [Example; 3] = [
    // `next next p`, where p holds in state 2 only.
    Example {
        name: "two-next",
        formulas: &[2],
        each: false,
    },
    // p, q, `next next next r`, their `q or next next next r`, and `p until` that. At state 1 the latter is true from point 5 on,
    // by q in state 5, and not from point 6 on only, by state 3, three states before r.
    Example {
        name: "later-witness",
        formulas: &[0, 1, 5, 6, 7],
        each: false,
    },
    // `(at 1 p) until next q`, where state 4 carries nominal 1. The label of state 1 waits for the nominal's state, that of state 2
    // for q in state 3.
    Example {
        name: "growing",
        formulas: &[4],
        each: true,
    },
];

// Prints the label of a formula at each state.
fn print_labels<R: Growing>(
    rt: &HostRuntime,
    name: &str,
    monitor: &Monitor<R>,
    formula: usize,
) -> io::Result<()> {
    let states = monitor.count();
    for state in 1..=states {
        match label_of(monitor, formula, state) {
            Ok(label) => {
                let row = Row {
                    states,
                    formula,
                    state,
                    label,
                };
                println!(rt; "{name} {row}")?;
            }
            Err(refusal) => return println!(rt; "{name} {refusal}"),
        }
    }
    Ok(())
}

// Appends the states one by one and prints the labels.
fn follow<R: Growing + Drop>(
    rt: &HostRuntime,
    example: Example,
    mut monitor: Monitor<R>,
    log: TextRecord<'_>,
) -> io::Result<()> {
    let last = log.count();
    for state in 1..=last {
        if let Err(refusal) = monitor.append(log.state(state)) {
            return println!(rt; "{} {refusal}", example.name);
        }
        if example.each || state == last {
            for formula in example.formulas {
                print_labels(rt, example.name, &monitor, *formula)?;
            }
        }
    }
    Ok(())
}

fn print_example(rt: &HostRuntime, example: Example) -> io::Result<()> {
    let name = example.name;
    let input = fs::read(rt, format!(in rt.alloc(); "{name}.log")?)?;
    let text = input.as_slice();
    match read_rules_text(text) {
        Ok(rules) => {
            let mut rows = [BLANK; MOST_STATES];
            let monitor = Monitor::new(rules.value, TableRecord::new(&mut rows));
            follow(rt, example, monitor, TextRecord::new(&text[rules.used..]))
        }
        Err(fault) => println!(rt; "{name} {fault}"),
    }
}

fn main(rt: HostRuntime) -> io::Result<()> {
    for example in EXAMPLES {
        print_example(&rt, example)?;
    }
    Ok(())
}
