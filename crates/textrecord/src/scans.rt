ghost use Rattle.std.specs.Prelude.{◌≡◌, slice_get};
ghost use Rattle.textrecord.specs.Listed.{states_of};

use logic::types::State;
use traces::states::read_state;

// The states of a text's leading lines that pass, one after another: each is read after the count of those before it.
#[derive(Drop)]
pub struct States<'a> {
    text: &'a [u8],
    count: usize,
}

impl<'a> States<'a> {
    ghost use Rattle.textrecord.specs.Left.{states_left};

    pub(crate) fn of(text: &'a [u8]) -> States<'a>
        ensures { states_left result ≡ states_of text.now }
    {
        States { text, count: 0 }
    }
}

impl<'a> Iterator for States<'a> {
    ghost use Rattle.std.specs.Iterator.{YieldsFirst, item_count};
    ghost use Rattle.textrecord.specs.Left.{states_left};

    type Item = State;

    ghost next_gives = { YieldsFirst states_left };

    ghost remaining = { item_count states_left };

    fn next(&mut self) -> Option<State> {
        let line = read_state(self.text, self.count).ok()?;
        self.text = &self.text[line.used..];
        self.count += 1;
        Some(line.value)
    }
}

// The state of the leading line that comes after `before` others.
pub(crate) fn state_after(text: &[u8], before: usize) -> Option<State>
    ensures { result ≡ slice_get (states_of text.now) before }
{
    States::of(text).nth(before)
}
