// Whether the states of a record are lawful: no nominal above 0 stands on two states, and every reference is to an earlier one.
#![tactic(auto)]

ghost use Rattle.std.specs.Prelude.{◌≡◌, ℕ, ◌+◌, ◌<◌, ◌≤◌, true, false, ◌⊎◌, List, [], ◌∷◌, ◌++◌, length, Decides, MatchResult, slice_index_or};
ghost use Rattle.logic.specs.States.{state_at};
ghost use Rattle.logic.specs.declared.types.State.{State};
ghost use Rattle.logic.specs.Lawful.{Unfit, NominalTaken, ReferenceUnfit, LawfulRecord};
ghost use Rattle.lawful.specs.Unlawful.{FirstUnlawful, joined, MayFollow, MayNotFollow};

use logic::types::{MOST_KIND, MOST_STATES, Reference, State};
use records::readable::Readable;
use refusals::Refusal;

fn is_unfit(reference: Reference, i: usize) -> bool
    ensures { Decides result (Unfit reference i) }
{
    if reference.kind == 0 {
        reference.target > 0
    } else {
        reference.kind > MOST_KIND || reference.target == 0 || usize::from(reference.target) >= i
    }
}

// Whether state i has a reference that it may not have.
fn has_unfit(state: State, i: usize) -> bool
    ensures here { Decides result (Unfit state.first i ⊎ Unfit state.second i) }
    ensures next { (xs : List State) → i ≡ length xs + 1 → Decides result (ReferenceUnfit (joined xs state) i) }
{
    is_unfit(state.first, i) || is_unfit(state.second, i)
}

// Whether a nominal is one, and was seen.
fn was_seen(nominal: usize, seen: &[bool]) -> bool
    requires { nominal < length seen.now }
    ensures { Decides result ((0 < nominal) × (slice_index_or seen.now nominal false ≡ true)) }
{
    nominal > 0 && seen[nominal]
}

// Refuses a record that is not lawful, for its first state that may not stand in a lawful trace; the nominal goes before the
// references.
pub fn first_unlawful<R: Readable>(log: &R) -> Result<(), Refusal>
    ensures { MatchResult result (λ _. LawfulRecord (R.states log.now)) (λ u. FirstUnlawful (R.states log.now) u) }
{
    // One flag for each nominal: fixed memory, for there is no heap.
    let mut seen = [false; 256];
    // From 0: an inclusive range is stepped with a flag and two comparisons more, at each state.
    for p in 0..log.count() {
        let i = p + 1;
        let state = log.state(i);
        let nominal = usize::from(state.nominal);
        if was_seen(nominal, &seen) {
            return Err(Refusal::NominalTaken(i));
        }
        if has_unfit(state, i) {
            return Err(Refusal::ReferenceUnfit(i));
        }
        seen[nominal] = true;
    }
    Ok(())
}

// Whether the nominal of a state stands on a state of the record.
fn is_taken<R: Readable>(log: &R, state: State) -> bool
    ensures { Decides result (NominalTaken (joined (R.states log.now) state) (length (R.states log.now) + 1)) }
{
    state.nominal > 0 && (0..log.count()).any(|p| log.state(p + 1).nominal == state.nominal)
}

// Refuses a state that may not follow those of a record; a record of 256 states is not continued.
pub fn next_unlawful<R: Readable>(log: &R, state: State) -> Result<(), Refusal>
    ensures { MatchResult result (λ _. MayFollow (R.states log.now) state) (MayNotFollow (R.states log.now) state) }
{
    let n = log.count();
    if n >= MOST_STATES {
        return Err(Refusal::TooManyStates);
    }
    if is_taken(log, state) {
        return Err(Refusal::NominalTaken(n + 1));
    }
    if has_unfit(state, n + 1) {
        return Err(Refusal::ReferenceUnfit(n + 1));
    }
    Ok(())
}
