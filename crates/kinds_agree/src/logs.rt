// The small logs, by number.
ghost use Rattle.std.specs.Prelude.{◌≡◌};
ghost use Rattle.kinds_agree.specs.Logs.{numbered, small, referring};

use logic::types::{Reference, State};
use records::readable::NO_REFERENCE;

// The signals of the states are the lowest digits of k in base 4, the next digit is the state with nominal 1, or 0 for none,
// and the next one is the reference of the last state. A digit is below 4, so each cast keeps its number.
pub fn numbered_log(k: usize) -> [State; 3]
    ensures { result ≡ numbered k }
{
    let named = k / 64 % 4;
    let third = reference(k / 256 % 4);
    [
        state((k % 4) as u32, named == 1, NO_REFERENCE),
        state((k / 4 % 4) as u32, named == 2, NO_REFERENCE),
        state((k / 16 % 4) as u32, named == 3, third),
    ]
}

fn state(signals: u32, named: bool, first: Reference) -> State
    ensures { result ≡ small signals named first }
{
    State {
        signals,
        nominal: u8::from(named),
        first,
        ..State::default()
    }
}

fn reference(digit: usize) -> Reference
    ensures { result ≡ referring digit }
{
    match digit {
        1 => Reference { kind: 1, target: 1 },
        2 => Reference { kind: 1, target: 2 },
        3 => Reference { kind: 2, target: 1 },
        _ => NO_REFERENCE,
    }
}
