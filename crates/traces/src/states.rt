ghost use Rattle.std.specs.Prelude.{◌≤◌};
ghost use Rattle.fields.specs.Readers.{GivenIf};
ghost use Rattle.traces.specs.Traces.{Ranged};
ghost use Rattle.traces.specs.Meanings.{reference, meaning, Reads};

use crate::numbers::{Numbers, numbers_of};
use faults::line::LineFault;
use fields::lines::{Taken, read_line};
use logic::types::{MOST_KIND, MOST_STATES, Reference, State};

// The reference of two numbers, if they are in their ranges.
fn reference_of(kind: u64, target: u64) -> Option<Reference>
    ensures { GivenIf ((kind ≤ 15) × (target ≤ 256)) (reference kind target) result }
{
    // A cast, as below.
    if kind > u64::from(MOST_KIND) || target > MOST_STATES as u64 {
        return None;
    }
    Some(Reference {
        kind: u8::try_from(kind).ok()?,
        target: u16::try_from(target).ok()?,
    })
}

// The state that the numbers of a line give after a count of states, if they are in their ranges.
fn state_of(v: Numbers, count: usize) -> Option<State>
    ensures { GivenIf (Ranged count v) (meaning v) result }
{
    // A cast, since no `From` leads from `usize` to `u64`.
    if count >= MOST_STATES || v.state != count as u64 + 1 {
        return None;
    }
    Some(State {
        signals: u32::try_from(v.signals).ok()?,
        nominal: u8::try_from(v.nominal).ok()?,
        first: reference_of(v.first_kind, v.first_target)?,
        second: reference_of(v.second_kind, v.second_target)?,
    })
}

// The state that the first line of a text shows, after a count of states.
pub fn read_state(text: &[u8], count: usize) -> Result<Taken<State>, LineFault>
    ensures { Reads text.now count result }
{
    read_line(text, 1, numbers_of, |numbers| state_of(numbers, count))
}
