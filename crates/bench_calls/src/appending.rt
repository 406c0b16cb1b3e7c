// Appending the states of a text to a live monitor.
ghost use Rattle.std.specs.Prelude.{◌≡◌, [], drop};
ghost use Rattle.textrecord.specs.Listed.{states_of};
ghost use Rattle.monitor.specs.Live.{states_of as monitor_states, count_of, ground_of};
ghost use Rattle.bench_calls.specs.Outcomes.{appended, TextAppended};

use crate::outcome::Outcome;
use logic::types::MOST_STATES;
use monitor::live::Monitor;
use records::growing::Growing;
use records::readable::{BLANK, Readable};
use records::table::TableRecord;
use rulestexts::texts::read_rules_text;
use textrecord::text::TextRecord;

// Appends the states of a trace text to a new monitor, up to the first that is refused.
fn append_all<R: Growing>(monitor: &mut Monitor<R>, text: &[u8]) -> Outcome
    requires fresh { count_of monitor.old ≡ 0 }
    requires empty { monitor_states monitor.old ≡ [] }
    ensures { result ≡ appended (ground_of monitor.old) [] (states_of text.now) }
{
    for state in TextRecord::new(text).states() {
        if let Err(refusal) = monitor.append(state) {
            return Outcome::stopped(refusal, monitor.count());
        }
    }
    Outcome::done(monitor.count())
}

// Appends the states of the trace lines that follow a rules text to a new monitor over a table record of 256 rows, one by one
// until one is refused, and answers how many it took.
#[unsafe(no_mangle)]
pub extern "C" fn bench_append(text: &[u8]) -> Outcome
    ensures { TextAppended text.now result }
{
    match read_rules_text(text) {
        Ok(rules) => {
            let mut rows = [BLANK; MOST_STATES];
            let mut monitor = Monitor::new(rules.value, TableRecord::new(&mut rows));
            append_all(&mut monitor, &text[rules.used..])
        }
        Err(fault) => Outcome::stopped(fault, 0),
    }
}
