// One expectation, followed from state to state.
ghost use Rattle.std.specs.Prelude.{◌≡◌, ◌<◌, ◌≤◌, true, false, length, drop, is_ok, IfErr};
ghost use Rattle.refusals.specs.declared.Refusal.TheVariants.{MemoryTooShort};
ghost use Rattle.monitor.specs.Live.{table_of, states_of, room_of, ground_of, Own};
ghost use Rattle.customer.specs.Following.{states_once, EachTold, StaysDecided, Lost};

use answers::types::{Answer, Call};
use expectations::types::Standing;
use logic::types::State;
use monitor::live::Monitor;
use records::growing::Growing;
use records::readable::Readable;
use refusals::Refusal;

// After each of the states, appended in turn, what has become by then of the expectation that the rule has of a state. Once it
// is told decided, it is told so ever after, with the same date.
pub fn follow<R: Growing>(
    monitor: &mut Monitor<R>,
    rule: usize,
    state: usize,
    xs: &[State],
    told: &mut [Result<Answer, Refusal>],
) -> Result<(), Refusal>
    ensures fits { is_ok result ≡ true → length xs.now ≤ length told.old }
    ensures refused { IfErr result (λ why. (why ≡ MemoryTooShort) × (length told.old < length xs.now)) }
    ensures same { is_ok result ≡ false → (monitor.new ≡ monitor.old) × (told.new ≡ told.old) }
    ensures own { Own monitor.old → Own monitor.new }
    ensures table { table_of monitor.new ≡ table_of monitor.old }
    ensures room { room_of monitor.new ≡ room_of monitor.old }
    ensures states { is_ok result ≡ true → Own monitor.old → states_of monitor.new ≡ states_once monitor.old xs.now }
    ensures later { drop (length xs.now) told.new ≡ drop (length xs.now) told.old }
    ensures each { is_ok result ≡ true → Own monitor.old → EachTold monitor.old xs.now rule state told.new }
    ensures for_good { is_ok result ≡ true → Own monitor.old → StaysDecided (length xs.now) told.new }
{
    if told.len() < xs.len() {
        return Err(Refusal::MemoryTooShort);
    }
    monitor.judge();
    for (k, x) in xs.iter().enumerate() {
        let _ = monitor.append(*x);
        monitor.judge();
        told[k] = monitor.ask(Call::StandingAt(rule, state, monitor.count()));
    }
    Ok(())
}

// Whether the rule's expectation of a state is violated, whatever states come later.
pub fn is_lost<R: Growing>(monitor: &Monitor<R>, rule: usize, state: usize) -> bool
    ensures { Own monitor.now → result ≡ true → Lost (ground_of monitor.now) (states_of monitor.now) rule state }
{
    monitor.judge();
    matches!(
        monitor.standing(rule, state, monitor.count()),
        Ok(Standing::Violated(_))
    )
}
