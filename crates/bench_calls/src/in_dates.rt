ghost use Rattle.std.specs.Prelude.{◌≡◌, ◌≤◌, map, length};
ghost use Rattle.bench_calls.specs.Memory.{over};
ghost use Rattle.bench_calls.specs.Kinds.{DatesTold};

use crate::labelled::label_text;
use crate::outcome::Outcome;
use labels::LabelKind;
use labels::dated::Dated;
use logic::types::MOST_STATES;
use table::draft::MOST_FORMULAS;

const MOST_LABELS: usize = MOST_FORMULAS * MOST_STATES;

// Writes the numbers of labels over the beginning of the memory.
fn put_numbers(cells: &[Dated], labels: &mut [i16])
    requires { length cells.now ≤ length labels.old }
    ensures { labels.new ≡ over (map (λ x. x.value) cells.now) labels.old }
{
    for (k, cell) in cells.iter().enumerate() {
        labels[k] = cell.value();
    }
}

// Labels the states of the trace lines that follow a rules text in dated labels, and answers how many there are. The numbers of
// the labels go to the beginning of the memory. For a clock it labels them `again` times more.
#[unsafe(no_mangle)]
pub extern "C" fn bench_label_dated(text: &[u8], again: usize, labels: &mut [i16]) -> Outcome
    ensures { DatesTold text.now labels.old result labels.new }
{
    let mut cells = [Dated::unknown(); MOST_LABELS];
    let mut work = [Dated::unknown(); MOST_LABELS];
    match label_text(text, again, labels.len(), &mut cells, &mut work) {
        Ok(counts) => {
            put_numbers(&cells[..counts.cells], labels);
            Outcome::done(counts.states)
        }
        Err(refused) => refused,
    }
}
