// A record that keeps of each state which signals differ from the state before, with all signals off before state 1.
ghost use Rattle.std.specs.Prelude.{◌≡◌, ◌≤◌, [], length};

use crate::change::{Change, change_to, state_made};
use crate::growing::{Full, Growing};
use crate::readable::Readable;
use logic::types::State;

// How many states there is room for.
const MOST_CHANGES: usize = 64;

// An array with a count, since a record has fixed memory and no heap.
#[derive(Drop)]
pub struct ChangeRecord {
    changes: [Change; MOST_CHANGES],
    count: usize,
    ghost places: { length changes ≡ 64 },
    ghost fits: { count ≤ 64 },
}

impl ChangeRecord {
    ghost use Rattle.records.specs.Changed.{change_states, change_room};

    pub fn new() -> ChangeRecord
        ensures empty { change_states result ≡ [] }
        ensures room { change_room result ≡ 64 }
    {
        ChangeRecord {
            changes: [Change::default(); MOST_CHANGES],
            count: 0,
        }
    }
}

impl Readable for ChangeRecord {
    ghost use Rattle.records.specs.Changed.{change_states};

    ghost states = { change_states };

    #[tactic(auto, using(crate::proofs::Replays::replayed_count))]
    fn count(&self) -> usize {
        self.count
    }

    fn state(&self, i: usize) -> State {
        state_made(&self.changes[..self.count], i)
    }
}

impl Growing for ChangeRecord {
    ghost use Rattle.records.specs.Changed.{change_room};

    ghost room = { change_room };

    fn capacity(&self) -> usize {
        self.changes.len()
    }

    #[tactic(auto, using(crate::proofs::Replays::replayed_count, crate::proofs::Replays::replayed_write))]
    fn append(&mut self, state: State) -> Result<(), Full> {
        if self.count >= self.capacity() {
            return Err(Full);
        }
        let change = change_to(state, &self.changes[..self.count]);
        self.changes[self.count] = change;
        self.count += 1;
        Ok(())
    }
}
