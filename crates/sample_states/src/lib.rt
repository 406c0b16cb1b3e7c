// States from which tests make their logs, and refusals as tests expect them.
#![tactic(auto)]

ghost use Rattle.std.specs.Prelude.{◌≡◌};
ghost use Rattle.logic.specs.States.{no_reference};
ghost use Rattle.sample_states.specs.Refused.{in_numbers};
ghost use Rattle.sample_states.specs.States.{reference, with_nominal, with_references};

use faults::fault::Fault;
use logic::types::{Reference, State};
use refusals::Refusal;

// The state at which these signals are on, without a nominal and references.
pub fn plain(signals: u32) -> State
    ensures { result ≡ with_nominal signals 0 }
{
    named(signals, 0)
}

// The same with a nominal.
pub fn named(signals: u32, nominal: u8) -> State
    ensures { result ≡ with_nominal signals nominal }
{
    State {
        signals,
        nominal,
        ..State::default()
    }
}

// The state without signals and a nominal that has this first reference.
pub fn referring(kind: u8, target: u16) -> State
    ensures { result ≡ with_references (reference kind target) no_reference }
{
    State {
        first: Reference { kind, target },
        ..State::default()
    }
}

// The same with a second reference in place of the first.
pub fn referring_second(kind: u8, target: u16) -> State
    ensures { result ≡ with_references no_reference (reference kind target) }
{
    State {
        second: Reference { kind, target },
        ..State::default()
    }
}

// The answer, or the refusal's number and place. By number and place, since these are what is written and what the tests hold.
pub fn told<T: Drop>(answer: Result<T, Refusal>) -> Result<T, (u8, usize)>
    ensures { result ≡ in_numbers answer }
{
    answer.map_err(|refusal| (refusal.number(), refusal.place()))
}
