// Whole labelling in labels of 128 points.
ghost use Rattle.std.specs.Prelude.{◌≡◌, true, is_ok};
ghost use Rattle.customer.specs.Labelled.{WideAnswered, EachMeans};

use crate::wide::Wide;
use labelling::whole::label_whole;
use records::readable::Readable;
use refusals::Refusal;
use table::finished::Table;

// Labels a record whole. Each label of a formula that is not loose means the formula.
pub fn label_wide<R: Readable>(
    table: &Table,
    log: &R,
    labels: &mut [Wide],
    work: &mut [Wide],
) -> Result<usize, Refusal>
    ensures answered { WideAnswered table.now (R.states log.now) labels.old work.old result labels.new work.new }
    ensures means { is_ok result ≡ true → EachMeans table.now (R.states log.now) labels.new }
{
    label_whole(table, log, labels, work)
}
