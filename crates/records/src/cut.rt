// A record that stands over another one and means its first states.
ghost use Rattle.std.specs.Prelude.{◌≡◌, take};

use crate::readable::{BLANK, Readable};
use logic::types::State;

// The first `limit` states of the record below, or all of them if there are fewer.
#[derive(Drop)]
pub struct CutRecord<R: Readable> {
    lower: R,
    limit: usize,
}

impl<R: Readable> CutRecord<R> {
    pub fn new(lower: R, limit: usize) -> CutRecord<R>
        ensures { (result.lower ≡ lower) × (result.limit ≡ limit) }
    {
        CutRecord { lower, limit }
    }
}

impl<R: Readable> Readable for CutRecord<R> {
    ghost states = { λ s. take s.limit (R.Readable.states s.lower) };

    fn count(&self) -> usize {
        self.lower.count().min(self.limit)
    }

    fn state(&self, i: usize) -> State {
        if i <= self.limit {
            self.lower.state(i)
        } else {
            BLANK
        }
    }
}
