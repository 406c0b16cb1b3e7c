// From the bytes of a rules text and the states of a log to what is so on every lawful endless trace that begins with them.
ghost use Rattle.std.specs.Prelude.{◌≡◌, [], length, IfOk, MatchResult};
ghost use Rattle.customer.specs.Deciding.{Tabled, LastReads, Whether};
ghost use Rattle.customer.specs.Following.{states_once};
ghost use Rattle.rulestexts.specs.Texts.{Refused};
ghost use Rattle.customer.specs.declared.deciding.Undecided.TheVariants.{Text};
ghost use Rattle.monitor.specs.Live.{table_of, states_of, room_of, ground_of, Own};

use expectations::types::Verdict;
use faults::read::ReadFault;
use logic::types::State;
use monitor::live::Monitor;
use records::growing::Growing;
use records::readable::Readable;
use refusals::Refusal;
use rulestexts::texts::read_rules_text;
use table::finished::Table;

// Why nothing is decided: the text is refused, or the label of the formula.
#[derive(Drop)]
pub enum Undecided {
    Text(ReadFault),
    Refused(Refusal),
}

// The table that a text begins with.
fn table_of_text(text: &[u8]) -> Result<Table, Undecided>
    ensures { MatchResult result (λ t. Tabled text.now t) (λ why. (e : _) × (why ≡ Text e) × Refused text.now e) }
{
    match read_rules_text(text) {
        Ok(taken) => Ok(taken.value),
        Err(fault) => Err(Undecided::Text(fault)),
    }
}

// Appends the states in turn; those that are refused are left out.
fn append_all<R: Growing>(monitor: &mut Monitor<R>, xs: &[State])
    ensures own { Own monitor.old → Own monitor.new }
    ensures table { table_of monitor.new ≡ table_of monitor.old }
    ensures room { room_of monitor.new ≡ room_of monitor.old }
    ensures states { Own monitor.old → states_of monitor.new ≡ states_once monitor.old xs.now }
{
    for x in xs {
        let _ = monitor.append(*x);
    }
}

// What the last state reads of a formula at a state.
fn label_last<R: Growing>(
    monitor: &Monitor<R>,
    formula: usize,
    state: usize,
) -> Result<Verdict, Undecided>
    ensures { Own monitor.now → LastReads (ground_of monitor.now) (states_of monitor.now) formula state result }
{
    monitor.judge();
    match monitor.label(formula, state, monitor.count()) {
        Ok(verdict) => Ok(verdict),
        Err(why) => Err(Undecided::Refused(why)),
    }
}

// What the last of the states that are accepted reads of a formula at a state.
pub fn decide<R: Growing + Drop>(
    text: &[u8],
    log: R,
    states: &[State],
    formula: usize,
    state: usize,
) -> Result<Verdict, Undecided>
    ensures { Whether text.now (R.Growing.room log) (length (R.Readable.states log)) states.now formula state result }
{
    let table = table_of_text(text)?;
    if log.count() > 0 {
        return Err(Undecided::Refused(Refusal::ForeignRecord));
    }
    let mut monitor = Monitor::new(table, log);
    append_all(&mut monitor, states);
    label_last(&monitor, formula, state)
}
