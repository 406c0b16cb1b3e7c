// What every record answers: how many states it holds, and each of them.
ghost use Rattle.std.specs.Prelude.{◌≡◌, List, length};
ghost use Rattle.logic.specs.States.{state_at};
ghost use Rattle.logic.specs.declared.types.State.{State};

use logic::types::{Reference, State};

// What a record answers for a state that it does not hold. It equals `State::default()`, which a const cannot call.
pub const BLANK: State = State {
    signals: 0,
    nominal: 0,
    first: NO_REFERENCE,
    second: NO_REFERENCE,
};

// A const too, for the consts that are made of it.
pub const NO_REFERENCE: Reference = Reference { kind: 0, target: 0 };

// A record means a list of states, numbered from 1. A state that it does not hold reads as all zeros.
pub trait Readable {
    ghost states: { Self → List State };

    fn count(&self) -> usize
        ensures { result ≡ length (states self.now) };

    fn state(&self, i: usize) -> State
        ensures { result ≡ state_at (states self.now) i };
}
