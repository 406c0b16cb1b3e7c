// Whole labelling of a text, in any kind of label.
ghost use Rattle.std.specs.Prelude.{◌≡◌, ◌*◌, ◌≤◌, length};
ghost use Rattle.bench_calls.specs.Labelled.{TableLabelled, LinesLabelled, TextLabelled};

use crate::gathering::gather;
use crate::outcome::Outcome;
use labelling::whole::label_whole;
use labels::LabelKind;
use logic::types::MOST_STATES;
use records::readable::{BLANK, Readable};
use records::table::TableRecord;
use refusals::Refusal;
use rulestexts::texts::read_rules_text;
use table::finished::Table;

// How many states were labelled, and how many cells their labels take.
#[derive(Drop, Clone, Copy)]
pub(crate) struct Counts {
    pub(crate) states: usize,
    pub(crate) cells: usize,
}

// Labels a record whole, and then as many times again, which gives the same.
fn label_again<K: LabelKind + Copy, R: Readable>(
    table: &Table,
    log: &R,
    again: usize,
    cells: &mut [K],
    work: &mut [K],
) -> Result<usize, Refusal>
    ensures { TableLabelled K.reads K.reach table.now (R.states log.now) cells.old work.old result cells.new work.new }
{
    let states = label_whole(table, log, cells, work)?;
    for _ in 0..again {
        // Never refused, since the first was not.
        let _ = label_whole(table, log, cells, work);
    }
    Ok(states)
}

// Labels the states of a trace text. Each line is read once.
fn label_states<K: LabelKind + Copy>(
    table: &Table,
    text: &[u8],
    again: usize,
    cells: &mut [K],
    work: &mut [K],
) -> Result<Counts, Refusal>
    ensures { LinesLabelled K.reads K.reach table.now text.now cells.old work.old result cells.new work.new }
{
    let mut rows = [BLANK; MOST_STATES];
    let mut log = TableRecord::new(&mut rows);
    gather(text, &mut log);
    let states = label_again(table, &log, again, cells, work)?;
    Ok(Counts {
        states,
        cells: table.formulas().len() * states,
    })
}

// Labels the states of the trace lines that follow a rules text, once and then as many times again, in as many of the cells as
// there is room for outside.
pub(crate) fn label_text<K: LabelKind + Copy>(
    text: &[u8],
    again: usize,
    room: usize,
    cells: &mut [K],
    work: &mut [K],
) -> Result<Counts, Outcome>
    requires long { 64 * K.reach ≤ length cells.old }
    requires alike { length work.old ≡ length cells.old }
    ensures { TextLabelled K.reads K.reach room text.now result cells.new }
{
    let most = room.min(cells.len());
    match read_rules_text(text) {
        Ok(rules) => label_states(
            &rules.value,
            &text[rules.used..],
            again,
            &mut cells[..most],
            &mut work[..most],
        )
        .map_err(|refusal| Outcome::stopped(refusal, 0)),
        Err(fault) => Err(Outcome::stopped(fault, 0)),
    }
}
