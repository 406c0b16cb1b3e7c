// The answers and the labels in lines of text.
ghost use Rattle.std.specs.Prelude.{◌≡◌, ◌≤◌, true, false};
ghost use Rattle.any_list.specs.Replies.{read};

use crate::calls::{CALL_COUNT, CALLS};
use answers::types::Answer;
use expectations::types::Verdict;
use labels::LabelKind;
use records::growing::Growing;
use refusals::Refusal;
use runs::run::run;
use std::io;
use table::finished::Table;

// How many states the list of calls leaves.
const STATES: usize = 4;

fn print_answer(rt: &HostRuntime, answer: Result<Answer, Refusal>) -> io::Result<()> {
    match answer {
        Ok(answer) => println!(rt; "{answer}"),
        Err(refusal) => println!(rt; "{refusal}"),
    }
}

// What the last of the states reads of a label.
fn read_last<K: LabelKind + Copy>(label: K) -> Verdict
    ensures { 4 ≤ K.reach → result ≡ read (K.reads label true 4) (K.reads label false 4) }
{
    if label.read(false, STATES) {
        Verdict::True
    } else if label.read(true, STATES) {
        Verdict::Unknown
    } else {
        Verdict::False
    }
}

fn print_labels<K: LabelKind + Copy>(rt: &HostRuntime, labels: &[K]) -> io::Result<()> {
    for (f, row) in labels.chunks(STATES).enumerate() {
        for (s, label) in (1..).zip(row) {
            println!(rt; "f={f} s={s} reads={}", read_last(*label))?;
        }
    }
    Ok(())
}

// Carries out the calls on a new monitor over the record, and prints their answers and the labels of the whole record, which are
// made in memory that is lent: nothing is allocated, so that no call ends for want of memory.
pub(crate) fn print_run<K: LabelKind + Copy, R: Growing + Drop>(
    rt: &HostRuntime,
    table: Table,
    log: R,
    labels: &mut [K],
    work: &mut [K],
) -> io::Result<()> {
    let mut answers = [Ok(Answer::Tells(None)); CALL_COUNT];
    let outcome = run(table, log, &CALLS, &mut answers, labels, work);
    match outcome.answered {
        Ok(_) => {
            for answer in &answers {
                print_answer(rt, *answer)?;
            }
        }
        Err(refusal) => println!(rt; "{refusal}")?,
    }
    match outcome.labelled {
        Ok(n) => {
            println!(rt; "labelled={n}")?;
            print_labels(rt, labels)
        }
        Err(refusal) => println!(rt; "{refusal}"),
    }
}
