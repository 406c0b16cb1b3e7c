// What a state changes, and the states that a list of changes makes.
ghost use Rattle.std.specs.Prelude.{◌≡◌, [], ◌∷◌, ◌++◌};
ghost use Rattle.logic.specs.States.{state_at};
ghost use Rattle.records.specs.Changed.{signals_shown_after, replayed};

use crate::readable::BLANK;
use logic::types::{Reference, State};

// The signals in which a state differs from the one before it, and what else it carries.
#[derive(Drop, Clone, Copy, PartialEq, Eq, Debug, Default)]
pub struct Change {
    pub differing: u32,
    pub nominal: u8,
    pub first: Reference,
    pub second: Reference,
}

// State i of those that the changes make.
#[tactic(auto, using(crate::proofs::Replays::made_past, crate::proofs::Replays::made_last))]
pub(crate) fn state_made(changes: &[Change], i: usize) -> State
    ensures { result ≡ state_at (replayed 0 changes.now) i }
{
    match changes.get(..i) {
        Some(made @ [.., change]) => State {
            signals: signals_after(made),
            nominal: change.nominal,
            first: change.first,
            second: change.second,
        },
        Some([]) | None => BLANK,
    }
}

// The change that makes the state, where it follows on the changes before.
#[tactic(auto, using(crate::proofs::Replays::made_back))]
pub(crate) fn change_to(state: State, before: &[Change]) -> Change
    ensures { replayed 0 (before.now ++ result ∷ []) ≡ replayed 0 before.now ++ state ∷ [] }
{
    Change {
        differing: signals_after(before) ^ state.signals,
        nominal: state.nominal,
        first: state.first,
        second: state.second,
    }
}

// The signals that are on after the changes, before which all are off.
fn signals_after(changes: &[Change]) -> u32
    ensures { result ≡ signals_shown_after 0 changes.now }
{
    changes
        .iter()
        .fold(0, |signals, change| signals ^ change.differing)
}
