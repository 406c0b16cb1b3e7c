// What a monitor tells while a log grows, in lines of text. Notices and the end line are written here as `watch` writes its
// lines: `slots` does not stand on `watch_lib`, which brings all readers of texts.
ghost use Rattle.std.specs.Prelude.{Decides};
ghost use Rattle.slots.specs.Slots.{ViolatedBefore};

use crate::rule::RULE;
use crate::stop::Stop;
use expectations::types::Standing;
use logic::types::{MOST_STATES, State};
use monitor::live::Monitor;
use records::growing::Growing;
use records::readable::Readable;
use table::finished::Table;

// Of one rule a truncation point tells at most a raising, of its own state, and a decision of each state up to it.
const MOST_NOTICES: usize = MOST_STATES + 1;

fn print_notices<R: Growing>(
    rt: &HostRuntime,
    monitor: &Monitor<R>,
    point: usize,
) -> Result<(), Stop> {
    for k in 0..MOST_NOTICES {
        let Some(notice) = monitor.notice(point, k)? else {
            break;
        };
        println!(rt; "s={point} {notice}")?;
    }
    Ok(())
}

// Whether it was violated at an earlier truncation point.
fn violated_before(standing: Standing, point: usize) -> bool
    ensures { Decides result (ViolatedBefore point standing) }
{
    matches!(standing, Standing::Violated(date) if date < point)
}

fn print_still_violated<R: Growing>(
    rt: &HostRuntime,
    monitor: &Monitor<R>,
    point: usize,
) -> Result<(), Stop> {
    for from in 1..point {
        let standing = monitor.standing(RULE, from, point)?;
        if violated_before(standing, point) {
            println!(rt; "s={point} r={RULE} from={from} still {standing}")?;
        }
    }
    Ok(())
}

// Appends the states one by one. After each it prints the point's notices and which expectations are still violated, and in
// the end the tally. The first refusal ends it.
pub(crate) fn story<R: Growing + Drop>(
    rt: &HostRuntime,
    table: Table,
    log: R,
    states: &[State],
) -> Result<(), Stop> {
    let mut monitor = Monitor::new(table, log);
    for state in states {
        let point = monitor.append(*state)?;
        print_notices(rt, &monitor, point)?;
        print_still_violated(rt, &monitor, point)?;
    }
    println!(rt; "end states={} {}", monitor.count(), monitor.tally(RULE)?)?;
    Ok(())
}
