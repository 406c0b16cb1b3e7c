ghost use Rattle.std.specs.Prelude.{◌≡◌, ◌≤◌, length};

use expectations::types::Tally;
use labels::dated::Dated;
use logic::types::MOST_STATES;
use table::draft::{MOST_FORMULAS, MOST_RULES};
use table::finished::Table;

// The most labels that a monitor keeps.
pub(crate) const MOST_LABELS: usize = MOST_FORMULAS * MOST_STATES;

// What a monitor keeps beside its record: the table with its rules, how many states it has labelled, their labels (formula f at
// state i of `count` has cell f * count + i - 1), working memory, and the tally of each rule. The memory is fixed, without a
// heap.
#[derive(Drop, Clone, Copy)]
pub struct Book {
    pub(crate) table: Table,
    pub(crate) count: usize,
    pub(crate) cells: [Dated; MOST_LABELS],
    pub(crate) work: [Dated; MOST_LABELS],
    pub(crate) tallies: [Tally; MOST_RULES],
    ghost short: { count ≤ 256 },
    ghost wide: { length cells ≡ 16384 },
    ghost spare: { length work ≡ 16384 },
    ghost sixteen: { length tallies ≡ 16 },
}
