ghost use Rattle.std.specs.Prelude.{◌≤◌};
ghost use Rattle.monitor.specs.Book.{Faithful};

use crate::book::Book;
use records::growing::Growing;

// A monitor over a growing record, which it takes over. While the record's count is the monitor's, the memory is right of the
// record's states. It has labelled no more states than the record has room for.
#[derive(Drop)]
pub struct Monitor<R: Growing> {
    pub(crate) book: Book,
    pub(crate) log: R,
    ghost faithful: { Faithful (R.Readable.states log) book },
    ghost roomy: { book.count ≤ R.Growing.room log },
}
