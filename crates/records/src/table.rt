// A record that keeps each state in a row of given memory.
ghost use Rattle.std.specs.Prelude.{◌≡◌, ◌≤◌, [], length};

use crate::growing::{Full, Growing};
use crate::readable::Readable;
use crate::rows::Rows;
use logic::types::State;

// The first `count` rows are the states. The rows are memory that is lent, so that a count stands beside them.
#[derive(Drop)]
pub struct TableRecord<'a> {
    rows: &'a mut [State],
    count: usize,
    ghost fits: { count ≤ length rows.now },
}

impl<'a> TableRecord<'a> {
    ghost use Rattle.records.specs.Tabled.{table_states, table_room};

    // An empty record over the rows, whatever they hold.
    pub fn new(rows: &'a mut [State]) -> TableRecord<'a>
        ensures empty { table_states result ≡ [] }
        ensures room { table_room result ≡ length rows.old }
        ensures same { result.rows.ghost_name ≡ rows.entry.ghost_name }
        ensures untouched { result.rows.now ≡ rows.old }
    {
        TableRecord { rows, count: 0 }
    }
}

impl<'a> Readable for TableRecord<'a> {
    ghost use Rattle.records.specs.Tabled.{table_states};

    ghost states = { table_states };

    fn count(&self) -> usize {
        self.count
    }

    fn state(&self, i: usize) -> State {
        Rows::new(&self.rows[..self.count]).state(i)
    }
}

impl<'a> Growing for TableRecord<'a> {
    ghost use Rattle.records.specs.Growth.{Grows};
    ghost use Rattle.records.specs.Tabled.{table_states, table_room, Written};

    ghost room = { table_room };

    fn capacity(&self) -> usize {
        self.rows.len()
    }

    // It writes one row of the given memory, or none where it refuses.
    fn append(&mut self, state: State) -> Result<(), Full>
        ensures kept { table_room self.new ≡ table_room self.old }
        ensures appended { Grows table_states table_room self.old state result self.new }
        ensures same { self.new.rows.ghost_name ≡ self.old.rows.ghost_name }
        ensures written { Written self.old state result self.new }
    {
        if self.count >= self.capacity() {
            return Err(Full);
        }
        self.rows[self.count] = state;
        self.count += 1;
        Ok(())
    }
}
