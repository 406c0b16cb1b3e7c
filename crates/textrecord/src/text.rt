ghost use Rattle.std.specs.Prelude.{◌≡◌};
ghost use Rattle.textrecord.specs.Listed.{states_of};

use crate::scans::{States, state_after};
use logic::types::State;
use records::readable::{BLANK, Readable};

// A trace text; its states are those of the leading lines that pass, each read after the count of those before it.
#[derive(Drop, Clone, Copy)]
pub struct TextRecord<'a> {
    text: &'a [u8],
}

impl<'a> TextRecord<'a> {
    ghost use Rattle.textrecord.specs.Left.{states_left};

    pub fn new(text: &'a [u8]) -> TextRecord<'a>
        ensures { result.text.now ≡ text.now }
    {
        TextRecord { text }
    }

    // The states, one after another; each line is read once.
    pub fn states(&self) -> States<'a>
        ensures { states_left result ≡ states_of self.now.text.now }
    {
        States::of(self.text)
    }
}

impl<'a> Readable for TextRecord<'a> {
    ghost states = { λ s. states_of s.text.now };

    fn count(&self) -> usize {
        self.states().count()
    }

    fn state(&self, i: usize) -> State {
        i.checked_sub(1)
            .and_then(|before| state_after(self.text, before))
            .unwrap_or(BLANK)
    }
}
