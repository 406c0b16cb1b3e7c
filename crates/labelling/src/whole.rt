// Whole labelling: the labels of all states of a record at all formulas of a table.
ghost use Rattle.std.specs.Prelude.{◌≡◌, ◌≤◌, length};
ghost use Rattle.labelling.specs.Rows.{Cleared};
ghost use Rattle.labelling.specs.Jobs.{AllPublished, JobLabelled, total};
ghost use Rattle.labelling.specs.Whole.{HasLabels, Short, Roomy, Labelling};

use crate::job::Job;
use crate::rows::clear;
use labels::LabelKind;
use lawful::first_unlawful;
use logic::types::{MOST_STATES, State};
use records::readable::{BLANK, Readable};
use records::rows::Rows;
use refusals::Refusal;
use table::finished::Table;

impl<'a> Job<'a> {
    // Copies the labels of the formulas that are not loose to the label memory, and makes those of the loose ones unknown there.
    fn publish<K: LabelKind + Copy>(&self, work: &[K], cells: &mut [K])
        requires { (length work.now ≡ total self.now) × (length cells.old ≡ total self.now) }
        ensures { AllPublished K.reads K.reach self.now work.now cells.new }
    {
        let n = self.n;
        cells.copy_from_slice(work);
        // By number: the row of formula f is found by it; `chunks_mut` takes no width of 0, which a record without states has.
        for (f, loose) in self.flags.iter().enumerate() {
            if *loose {
                clear(&mut cells[f * n..f * n + n]);
            }
        }
    }

    // Fills the rows in the working memory, publishes them, and makes the working memory unknown.
    fn label_rows<K: LabelKind + Copy>(&self, cells: &mut [K], work: &mut [K])
        requires { (length work.old ≡ total self.now) × (length cells.old ≡ total self.now) }
        ensures labels { HasLabels K.reads K.reach self.now.table.now self.now.states.now cells.new }
        ensures cleared { Cleared K.reads K.reach work.new (length work.old) }
    {
        self.label_table(work);
        self.publish(work, cells);
        clear(work);
    }

    // Labels the states, in as many cells of both memories as there are formulas times states.
    fn label_all<K: LabelKind + Copy>(&self, labels: &mut [K], work: &mut [K])
        requires short { Short self.now.n K.reach }
        requires roomy { Roomy (total self.now) (length labels.old) (length work.old) }
        ensures { JobLabelled K.reads K.reach self.now labels.old work.old labels.new work.new }
    {
        let total = self.table.len() * self.n;
        self.label_rows(&mut labels[..total], &mut work[..total]);
    }
}

// The states of a record, put into rows, so that each is read but once.
fn read_states<'a, R: Readable>(log: &R, rows: &'a mut [State]) -> &'a [State]
    requires { length (R.states log.now) ≤ length rows.old }
    ensures { result.now ≡ R.states log.now }
{
    let states = &mut rows[..log.count()];
    for (p, state) in states.iter_mut().enumerate() {
        *state = log.state(p + 1);
    }
    states
}

// Labels all states of a record at all formulas of a table, in any kind of label, and answers the number of states. Formula f
// at state i of n has cell f * n + i - 1 of `labels`; `work` is working memory of as many cells. Two slices, as the caller lends
// them, through all that is called here: one is answered in, the other is cleared.
pub fn label_whole<K: LabelKind + Copy, R: Readable>(
    table: &Table,
    log: &R,
    labels: &mut [K],
    work: &mut [K],
) -> Result<usize, Refusal>
    ensures { Labelling K.reads K.reach table.now (R.states log.now) labels.old work.old result labels.new work.new }
{
    let n = log.count();
    if n > MOST_STATES || n > K::length() {
        return Err(Refusal::TooManyStates);
    }
    let formulas = table.formulas();
    let total = formulas.len() * n;
    if labels.len() < total || work.len() < total {
        return Err(Refusal::MemoryTooShort);
    }
    let mut rows = [BLANK; MOST_STATES];
    let states = read_states(log, &mut rows);
    first_unlawful(&Rows::new(states))?;
    let job = Job {
        states,
        n,
        table: formulas,
        flags: table.loose(),
    };
    job.label_all(labels, work);
    Ok(n)
}
