// What a record that grows accepts.
ghost use Rattle.std.specs.Prelude.{◌≡◌, ℕ};
ghost use Rattle.records.specs.Growth.{Grows};

use crate::readable::Readable;
use logic::types::State;

// The one refusal of an append: as many states are held as there is room for.
#[derive(Drop, Clone, Copy, PartialEq, Eq, Debug)]
pub struct Full;

// A record with room for a number of states, which never changes.
pub trait Growing: Readable {
    ghost room: { Self → ℕ };

    fn capacity(&self) -> usize
        ensures { result ≡ room self.now };

    fn append(&mut self, state: State) -> Result<(), Full>
        ensures kept { room self.new ≡ room self.old }
        ensures appended { Grows Self.Readable.states room self.old state result self.new };
}
