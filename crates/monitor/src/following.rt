// How a monitor's memory follows its record.
ghost use Rattle.std.specs.Prelude.{◌≡◌, ◌≤◌, [], length};
ghost use Rattle.logic.specs.Lawful.{LawfulRecord};
ghost use Rattle.monitor.specs.Book.{Right, FollowsLawful};

use crate::book::{Book, MOST_LABELS};
use expectations::types::Tally;
use labelling::whole::label_whole;
use labels::LabelKind;
use labels::dated::Dated;
use records::readable::Readable;
use table::draft::MOST_RULES;
use table::finished::Table;

impl Book {
    // The memory of a monitor that has labelled no state.
    pub(crate) fn new(table: Table) -> Book
        ensures table { result.table ≡ table }
        ensures fresh { result.count ≡ 0 }
        ensures right { Right [] result }
    {
        Book {
            table,
            count: 0,
            cells: [Dated::unknown(); MOST_LABELS],
            work: [Dated::unknown(); MOST_LABELS],
            tallies: [Tally::default(); MOST_RULES],
        }
    }

    // Labels the states of a record and counts the tallies by their labels. A lawful record of at most 256 states is never
    // declined, since the memory suffices for 64 formulas.
    pub(crate) fn follow<R: Readable>(&mut self, log: &R)
        ensures table { self.new.table ≡ self.old.table }
        ensures followed { FollowsLawful (R.states log.now) self.new }
    {
        if let Ok(n) = label_whole(&self.table, log, &mut self.cells, &mut self.work) {
            self.count = n;
            self.recount();
        }
    }
}
