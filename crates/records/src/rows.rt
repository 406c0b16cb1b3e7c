// A record over rows that are all filled; it does not grow.
ghost use Rattle.std.specs.Prelude.{◌≡◌};

use crate::readable::{BLANK, Readable};
use logic::types::State;

#[derive(Drop)]
pub struct Rows<'a> {
    rows: &'a [State],
}

impl<'a> Rows<'a> {
    pub fn new(rows: &'a [State]) -> Rows<'a>
        ensures { result.rows.now ≡ rows.now }
    {
        Rows { rows }
    }
}

impl<'a> Readable for Rows<'a> {
    ghost states = { λ s. s.rows.now };

    fn count(&self) -> usize {
        self.rows.len()
    }

    fn state(&self, i: usize) -> State {
        i.checked_sub(1)
            .and_then(|k| self.rows.get(k))
            .copied()
            .unwrap_or(BLANK)
    }
}
