// The log of a double free.
ghost use Rattle.std.specs.Prelude.{◌≡◌, ◌^◌, ◌<◌};
ghost use Rattle.slots.specs.Slots.{shown, double_free_log};

use crate::rule::{FREE, TAKE};
use logic::types::State;
use records::readable::BLANK;

// The state at which this signal alone is on.
fn showing(signal: u8) -> State
    requires { signal < 32 }
    ensures { result ≡ shown signal }
{
    State {
        signals: 1 << signal,
        ..BLANK
    }
}

pub fn double_free() -> [State; 6]
    ensures { result ≡ double_free_log }
{
    let take = showing(TAKE);
    let free = showing(FREE);
    [take, free, take, take, free, take]
}
