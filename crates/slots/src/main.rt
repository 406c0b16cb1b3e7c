// A request slot allocator. A free slot is taken, and freed before it is taken again; that is the rule. In this log a slot was
// freed twice, so that the pool hands it out again at state 4 while its client of state 3 still has it. The same story is told
// over two kinds of record. By the law of a monitor the violation is for good (for_good.rt, live.rt).
#![tactic(auto)]

ghost use Rattle.std.specs.Prelude.{◌≡◌, Some, Ok};
ghost use Rattle.expectations.specs.declared.types.Standing.TheVariants.{Violated};

mod for_good;
mod live;
mod log;
mod rule;
mod stop;
mod story;

use crate::for_good::{refused_over_another, violated_for_good};
use crate::live::{labelled_whole, live_standing};
use crate::log::double_free;
use crate::rule::{RULE, slot_table};
use crate::stop::Stop;
use crate::story::story;
use answers::types::Answer;
use expectations::types::Standing;
use faults::fault::Fault;
use records::change_record::ChangeRecord;
use records::readable::BLANK;
use records::table::TableRecord;
use std::io;
use table::defects::Defect;

// A story that a refusal ends is told so far. Of a refusal this program prints the number alone, as docs/FORMATS.md has it.
fn ended(rt: &HostRuntime, end: Result<(), Stop>) -> io::Result<()> {
    match end {
        Ok(()) => Ok(()),
        Err(Stop::Refused(refusal)) => println!(rt; "refused={}", refusal.number()),
        Err(Stop::Unwritten(error)) => Err(error),
    }
}

// What the last state says of the slot of state 3, where the list of calls, the live monitor and the whole labelling agree on it.
fn last_standing() -> Result<Option<Standing>, Defect>
    ensures { result ≡ Ok (Some (Violated 4)) }
{
    let [.., last] = violated_for_good()?;
    let live = live_standing()?;
    let whole = labelled_whole()?;
    Ok(match (last, live, whole) {
        (Ok(Answer::Stands(told)), Ok(now), (Ok(_), false)) if told == now => Some(now),
        _ => None,
    })
}

// Tells the standing for which the law vouches: whatever lawful states follow, it is so for good.
fn print_for_good(rt: &HostRuntime) -> io::Result<()> {
    match last_standing() {
        Ok(Some(standing)) => {
            let date = standing.date();
            println!(rt; "r={RULE} from=3 {standing} at {date} for good")
        }
        Ok(None) => Ok(()),
        Err(defect) => println!(rt; "{defect}"),
    }
}

// Tells what is answered over a record that holds a state beforehand: each call is refused.
fn print_over_another(rt: &HostRuntime) -> io::Result<()> {
    match refused_over_another() {
        Ok(answers) => {
            for answer in answers {
                match answer {
                    Ok(answer) => println!(rt; "{answer}")?,
                    Err(refusal) => println!(rt; "refused={}", refusal.number())?,
                }
            }
            Ok(())
        }
        Err(defect) => println!(rt; "{defect}"),
    }
}

fn main(rt: HostRuntime) -> io::Result<()> {
    let table = match slot_table() {
        Ok(table) => table,
        Err(defect) => return println!(rt; "{defect}"),
    };
    let log = double_free();
    // Room for the six states, and two rows more: a record may be longer than its log.
    let mut rows = [BLANK; 8];
    println!(rt; "record=table")?;
    ended(&rt, story(&rt, table, TableRecord::new(&mut rows), &log))?;
    println!(rt; "record=changes")?;
    ended(&rt, story(&rt, table, ChangeRecord::new(), &log))?;
    println!(rt; "record=held")?;
    print_over_another(&rt)?;
    print_for_good(&rt)
}
