// What the program tells, in lines of text.
ghost use Rattle.std.specs.Prelude.{◌≡◌, ◌<◌, ◌≤◌, true, false};
ghost use Rattle.customer.specs.Wide.{wide, read_as};

use crate::alarm::Alarm;
use crate::deciding::{Undecided, decide};
use crate::following::{follow, is_lost};
use crate::labelled::label_wide;
use crate::slot::{CONTENT, FORMULAS, FREED, LOG, RULE, TAKEN, TEXT};
use crate::wide::Wide;
use answers::types::{Answer, Call};
use expectations::types::Verdict;
use labels::LabelKind;
use monitor::live::Monitor;
use records::growing::Growing;
use refusals::Refusal;
use runs::run::run;
use std::io;
use table::defects::Defect;
use table::finished::Table;

// How many states the list of calls leaves, and how many labels they have.
const STATES: usize = 3;

const CELLS: usize = FORMULAS * STATES;

const LOG_CELLS: usize = FORMULAS * LOG.len();

const CALLS: [Call; 8] = [
    Call::Append(TAKEN),
    Call::Append(FREED),
    Call::Append(TAKEN),
    Call::StandingAt(RULE, 1, 3),
    Call::StandingAt(RULE, 3, 3),
    Call::TallyOf(RULE),
    Call::NoticeOf(2, 0),
    Call::LabelAt(CONTENT, 4, 4),
];

fn print_answers(rt: &HostRuntime, answers: &[Result<Answer, Refusal>]) -> io::Result<()> {
    for answer in answers {
        match answer {
            Ok(answer) => println!(rt; "{answer}")?,
            Err(refusal) => println!(rt; "{refusal}")?,
        }
    }
    Ok(())
}

// What has become of the expectation of state 3, from state to state, and whether it is lost in the end.
pub fn print_followed<R: Growing + Drop>(rt: &HostRuntime, table: Table, log: R) -> io::Result<()> {
    let mut monitor = Monitor::new(table, log);
    let mut told = [Err(Refusal::ForeignRecord); LOG.len()];
    if let Err(refusal) = follow(&mut monitor, RULE, 3, &LOG, &mut told) {
        println!(rt; "{refusal}")?;
    }
    print_answers(rt, &told)?;
    println!(rt; "lost={}", is_lost(&monitor, RULE, 3))
}

// Whether the alarm is on, from state to state.
pub fn print_alarm<R: Growing + Drop>(rt: &HostRuntime, table: Table, log: R) -> io::Result<()> {
    let mut alarm = match Alarm::new(table, log, RULE) {
        Ok(alarm) => alarm,
        Err(refusal) => return println!(rt; "{refusal}"),
    };
    for state in LOG {
        match alarm.take(state) {
            Ok(n) => println!(rt; "state={n} alarm={}", alarm.is_on())?,
            Err(refusal) => println!(rt; "{refusal}")?,
        }
    }
    Ok(())
}

// What the first two states of the log decide of the rule's content at a state.
pub fn print_decided<R: Growing + Drop>(rt: &HostRuntime, log: R, state: usize) -> io::Result<()> {
    match decide(TEXT, log, &LOG[..2], CONTENT, state) {
        Ok(verdict) => println!(rt; "f={CONTENT} s={state} decided={verdict}"),
        Err(Undecided::Text(fault)) => println!(rt; "{fault}"),
        Err(Undecided::Refused(refusal)) => println!(rt; "{refusal}"),
    }
}

// What a point reads of a label.
fn read_at(label: Wide, point: usize) -> Verdict
    ensures { 0 < point → point ≤ 128 → result ≡ read_as (wide label.weak label.strong) point }
{
    if label.read(false, point) {
        Verdict::True
    } else if label.read(true, point) {
        Verdict::Unknown
    } else {
        Verdict::False
    }
}

// What the last state reads of a row of labels, one for each state.
fn print_content(rt: &HostRuntime, row: &[Wide]) -> io::Result<()> {
    for (s, label) in (1..).zip(row) {
        println!(rt; "f={CONTENT} s={s} reads={}", read_at(*label, row.len()))?;
    }
    Ok(())
}

// The answers to a list of calls on a new monitor over a record, and the labels of its record.
pub fn print_run<R: Growing + Drop>(rt: &HostRuntime, table: Table, log: R) -> io::Result<()> {
    let mut answers = [Err(Refusal::ForeignRecord); CALLS.len()];
    let mut labels = [Wide::unknown(); CELLS];
    let mut work = [Wide::unknown(); CELLS];
    let outcome = run(table, log, &CALLS, &mut answers, &mut labels, &mut work);
    print_answers(rt, &answers)?;
    match outcome.labelled {
        Ok(_) => print_content(rt, &labels[CONTENT * STATES..]),
        Err(refusal) => println!(rt; "{refusal}"),
    }
}

// The labels of a record that holds the log, without a monitor.
pub fn print_labels<R: Growing + Drop>(
    rt: &HostRuntime,
    table: Table,
    mut log: R,
) -> io::Result<()> {
    for state in LOG {
        let _ = log.append(state);
    }
    let mut labels = [Wide::unknown(); LOG_CELLS];
    let mut work = [Wide::unknown(); LOG_CELLS];
    match label_wide(&table, &log, &mut labels, &mut work) {
        Ok(_) => print_content(rt, &labels[CONTENT * LOG.len()..]),
        Err(refusal) => println!(rt; "{refusal}"),
    }
}

// The answers of the small log, or the defect of its table.
pub fn print_told<const N: usize>(
    rt: &HostRuntime,
    told: Result<[Result<Answer, Refusal>; N], Defect>,
) -> io::Result<()> {
    match told {
        Ok(answers) => print_answers(rt, &answers),
        Err(defect) => println!(rt; "{defect}"),
    }
}
