ghost use Rattle.std.specs.Prelude.{◌≡◌, length, map};
ghost use Rattle.textrecord.specs.Listed.{states_of};
ghost use Rattle.bench_calls.specs.Memory.{over};
ghost use Rattle.bench_calls.specs.Outcomes.{RulesRead};

use crate::gathering::gather;
use crate::outcome::Outcome;
use logic::types::MOST_STATES;
use records::readable::{BLANK, Readable};
use records::table::TableRecord;
use rulestexts::texts::read_rules_text;

// Reads a rules text, and answers how many bytes it has, or why it is refused.
#[unsafe(no_mangle)]
pub extern "C" fn bench_read_rules(text: &[u8]) -> Outcome
    ensures { RulesRead text.now result }
{
    match read_rules_text(text) {
        Ok(rules) => Outcome::done(rules.used),
        Err(fault) => Outcome::stopped(fault, 0),
    }
}

// The signals of the first states of a record, as many as there is room for.
fn put_signals<R: Readable>(log: &R, signals: &mut [u32])
    ensures { signals.new ≡ over (map (λ q. q.signals) (R.states log.now)) signals.old }
{
    for k in 0..log.count().min(signals.len()) {
        signals[k] = log.state(k + 1).signals;
    }
}

// Reads the leading trace lines that pass, and answers how many there are. The signals of their states go to the beginning of the
// memory, as far as there is room.
#[unsafe(no_mangle)]
pub extern "C" fn bench_read_states(text: &[u8], signals: &mut [u32]) -> usize
    ensures count { result ≡ length (states_of text.now) }
    ensures signals { signals.new ≡ over (map (λ q. q.signals) (states_of text.now)) signals.old }
{
    let mut rows = [BLANK; MOST_STATES];
    let mut log = TableRecord::new(&mut rows);
    gather(text, &mut log);
    put_signals(&log, signals);
    log.count()
}
