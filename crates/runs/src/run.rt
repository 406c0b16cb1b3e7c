ghost use Rattle.std.specs.Prelude.{◌≡◌, ◌<◌, ◌≤◌, true, false, length, drop, is_ok, Ok, Err};
ghost use Rattle.refusals.specs.declared.Refusal.TheVariants.{ForeignRecord, MemoryTooShort};
ghost use Rattle.answers.specs.Answers.{IsQuery};
ghost use Rattle.answers.specs.Law.{Ran};
ghost use Rattle.answers.specs.Lasting.{NeverTakenBack};
ghost use Rattle.monitor.specs.Live.{table_of, states_of, room_of, count_of, ground_of, Own, IsNew, reply_of, states_after};
ghost use Rattle.runs.specs.Runs.{Enough, TooLittle, RanFrom, RanOn, MadeOver};
ghost use Rattle.runs.specs.FromEmpty.{FromEmpty};
ghost use Rattle.runs.specs.Labelled.{EndsLabelled, EndsDeclined, EndsAnswered, EndsAgreeing};

use answers::types::{Answer, Call};
use labels::LabelKind;
use monitor::live::Monitor;
use records::growing::Growing;
use records::readable::Readable;
use refusals::Refusal;
use table::finished::Table;

// One call of a monitor, with its answer. A refusal changes nothing, and nor does a query.
pub fn reply<R: Growing>(monitor: &mut Monitor<R>, call: Call) -> Result<Answer, Refusal>
    ensures told { result ≡ reply_of monitor.old call }
    ensures states { states_of monitor.new ≡ states_after monitor.old call }
    ensures refused { is_ok result ≡ false → monitor.new ≡ monitor.old }
    ensures queries { IsQuery call → monitor.new ≡ monitor.old }
    ensures foreign { (Own monitor.old → ⊥) → monitor.new ≡ monitor.old }
    ensures declined { (Own monitor.old → ⊥) → result ≡ Err ForeignRecord }
    ensures own { Own monitor.old → Own monitor.new }
    ensures table { table_of monitor.new ≡ table_of monitor.old }
    ensures room { room_of monitor.new ≡ room_of monitor.old }
    ensures ground { ground_of monitor.new ≡ ground_of monitor.old }
{
    match call {
        Call::Append(state) => monitor.append(state).map(Answer::Number),
        query => monitor.ask(query),
    }
}

// Carries out the calls of a list in order, on a new monitor.
fn reply_all<R: Growing>(
    monitor: &mut Monitor<R>,
    calls: &[Call],
    answers: &mut [Result<Answer, Refusal>],
)
    requires fresh { count_of monitor.old ≡ 0 }
    requires memory { Enough calls.now answers.old }
    ensures ran { Ran (ground_of monitor.old) (states_of monitor.old) calls.now answers.new (states_of monitor.new) }
    ensures later { drop (length calls.now) answers.new ≡ drop (length calls.now) answers.old }
    ensures foreign { 0 < length (states_of monitor.old) → monitor.new ≡ monitor.old }
    ensures own { length (states_of monitor.old) ≡ 0 → Own monitor.new }
    ensures table { table_of monitor.new ≡ table_of monitor.old }
    ensures room { room_of monitor.new ≡ room_of monitor.old }
{
    // By number, since of a slice that `iter_mut` lends to a `zip` a proof knows nothing afterwards.
    for (k, call) in calls.iter().enumerate() {
        answers[k] = reply(monitor, *call);
    }
}

// A new monitor. Never inlined: what making it takes of the stack, two monitors more, is free again when the calls are made.
#[inline(never)]
fn new_monitor<R: Growing>(table: Table, log: R) -> Monitor<R>
    ensures { IsNew table log result }
{
    Monitor::new(table, log)
}

// Carries out the calls as `reply_all` does, and answers how many there were. Memory for fewer answers than calls is refused, and
// nothing is called. It changes the monitor in its place, so that a caller holds one, and no copy of it.
fn answer_all<R: Growing>(
    monitor: &mut Monitor<R>,
    calls: &[Call],
    answers: &mut [Result<Answer, Refusal>],
) -> Result<usize, Refusal>
    requires fresh { count_of monitor.old ≡ 0 }
    ensures refused { TooLittle calls.now answers.old → result ≡ Err MemoryTooShort }
    ensures uncalled { TooLittle calls.now answers.old → monitor.new ≡ monitor.old }
    ensures unused { TooLittle calls.now answers.old → answers.new ≡ answers.old }
    ensures answered { Enough calls.now answers.old → result ≡ Ok (length calls.now) }
    ensures ran { Enough calls.now answers.old → RanFrom monitor.old calls.now answers.new monitor.new }
    ensures for_good { Enough calls.now answers.old → NeverTakenBack calls.now answers.new }
    ensures later { drop (length calls.now) answers.new ≡ drop (length calls.now) answers.old }
    ensures foreign { 0 < length (states_of monitor.old) → monitor.new ≡ monitor.old }
    ensures empty { length (states_of monitor.old) ≡ 0 → FromEmpty monitor.new }
    ensures table { table_of monitor.new ≡ table_of monitor.old }
    ensures room { room_of monitor.new ≡ room_of monitor.old }
{
    if answers.len() < calls.len() {
        return Err(Refusal::MemoryTooShort);
    }
    reply_all(monitor, calls, answers);
    Ok(calls.len())
}

// What a list of calls on a new monitor leaves: the monitor, and how many calls were answered.
#[derive(Drop)]
pub struct Called<R: Growing> {
    pub monitor: Monitor<R>,
    pub answered: Result<usize, Refusal>,
}

// Carries out any list of calls on a new monitor over a table and a record, and writes their answers. Memory for fewer answers
// than calls is refused, and nothing is called. It is lent, so that no allocation can fail in the middle.
pub fn call_all<R: Growing>(
    table: Table,
    log: R,
    calls: &[Call],
    answers: &mut [Result<Answer, Refusal>],
) -> Called<R>
    ensures refused { TooLittle calls.now answers.old → result.answered ≡ Err MemoryTooShort }
    ensures uncalled { TooLittle calls.now answers.old → IsNew table log result.monitor }
    ensures unused { TooLittle calls.now answers.old → answers.new ≡ answers.old }
    ensures answered { Enough calls.now answers.old → result.answered ≡ Ok (length calls.now) }
    ensures ran { Enough calls.now answers.old → RanOn table log calls.now answers.new result.monitor }
    ensures for_good { Enough calls.now answers.old → NeverTakenBack calls.now answers.new }
    ensures later { drop (length calls.now) answers.new ≡ drop (length calls.now) answers.old }
    ensures made { MadeOver table log result.monitor }
    ensures foreign { 0 < length (R.Readable.states log) → IsNew table log result.monitor }
    ensures empty { length (R.Readable.states log) ≡ 0 → FromEmpty result.monitor }
{
    // Made where it is handed back, so that the monitor is not moved; the answer is put in after the calls.
    let mut called = Called {
        monitor: new_monitor(table, log),
        answered: Err(Refusal::MemoryTooShort),
    };
    called.answered = answer_all(&mut called.monitor, calls, answers);
    called
}

// What a list of calls on a new monitor leaves, and how many states of its record were then labelled whole.
#[derive(Drop)]
pub struct Outcome<R: Growing> {
    pub monitor: Monitor<R>,
    pub answered: Result<usize, Refusal>,
    pub labelled: Result<usize, Refusal>,
}

// Carries out any list of calls on a new monitor, as `call_all` does, and then labels the record whole in any kind of label.
// Where the calls are refused, nothing is labelled.
pub fn run<K: LabelKind + Copy, R: Growing>(
    table: Table,
    log: R,
    calls: &[Call],
    answers: &mut [Result<Answer, Refusal>],
    labels: &mut [K],
    work: &mut [K],
) -> Outcome<R>
    ensures refused { TooLittle calls.now answers.old → result.answered ≡ Err MemoryTooShort }
    ensures uncalled { TooLittle calls.now answers.old → IsNew table log result.monitor }
    ensures unused { TooLittle calls.now answers.old → answers.new ≡ answers.old }
    ensures answered { Enough calls.now answers.old → result.answered ≡ Ok (length calls.now) }
    ensures ran { Enough calls.now answers.old → RanOn table log calls.now answers.new result.monitor }
    ensures for_good { Enough calls.now answers.old → NeverTakenBack calls.now answers.new }
    ensures later { drop (length calls.now) answers.new ≡ drop (length calls.now) answers.old }
    ensures made { MadeOver table log result.monitor }
    ensures foreign { 0 < length (R.Readable.states log) → IsNew table log result.monitor }
    ensures empty { length (R.Readable.states log) ≡ 0 → FromEmpty result.monitor }
    ensures unlabelled { TooLittle calls.now answers.old → result.labelled ≡ Err MemoryTooShort }
    ensures unwritten { TooLittle calls.now answers.old → (labels.new ≡ labels.old) × (work.new ≡ work.old) }
    ensures declined { EndsDeclined log calls.now answers.old result }
    ensures untouched { 0 < length (R.Readable.states log) → (labels.new ≡ labels.old) × (work.new ≡ work.old) }
    ensures whole { EndsLabelled K.reads K.reach calls.now answers.old labels.old work.old result labels.new work.new }
    ensures enough { EndsAnswered K.reach calls.now answers.old labels.old work.old result }
    ensures agrees { EndsAgreeing K.reads calls.now answers.old result labels.new }
{
    let mut monitor = new_monitor(table, log);
    if let Err(refusal) = answer_all(&mut monitor, calls, answers) {
        return Outcome {
            monitor,
            answered: Err(refusal),
            labelled: Err(refusal),
        };
    }
    let labelled = monitor.label_record(labels, work);
    Outcome {
        monitor,
        answered: Ok(calls.len()),
        labelled,
    }
}
