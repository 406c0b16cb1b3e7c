// From an input to the lines of output.
ghost use Rattle.std.specs.Prelude.{◌≡◌, ◌≤◌, [], ◌∷◌, length, IfOk};
ghost use Rattle.watch_lib.specs.Laws.{Only, PrintsFirst};
ghost use Rattle.watch_lib.specs.Watched.{TracedAfter, Watched};

use crate::lines::Line;
use crate::watcher::Watcher;
use faults::fault::Fault;
use fields::lines::Taken;
use logic::types::MOST_STATES;
use records::growing::Growing;
use records::readable::{BLANK, Readable};
use records::table::TableRecord;
use refusals::Refusal;
use rulestexts::texts::read_rules_text;
use std::alloc::{AllocError, Global};
use table::finished::Table;

// The most bytes of an input.
pub const MOST_BYTES: usize = 32768;

// One line alone.
fn only(heap: Global, line: Line) -> Result<Vec<Line>, AllocError>
    ensures { IfOk result (λ v. v.items ≡ line ∷ []) }
{
    Ok(vec![in heap; line]?)
}

// The lines of an input whose rules text was read, over an empty record. That the input is small bounds the numbers of its
// lines; it stays a clause of the three functions that hand the text on, since the text is borrowed from the caller.
fn watch_log<R: Growing + Drop>(
    heap: Global,
    rules: Taken<Table>,
    input: &[u8],
    log: R,
) -> Result<Vec<Line>, AllocError>
    requires empty { R.Readable.states log ≡ [] }
    requires used { rules.used ≤ length input.now }
    requires small { length input.now ≤ 32768 }
    ensures { IfOk result (λ v. TracedAfter rules.value rules.used input.now (R.Growing.room log) v.items) }
{
    let place = rules.value.formulas().len() + rules.value.rules().len() + 3;
    Watcher::new(rules.value, log).follow(heap, &input[rules.used..], place)
}

// The lines of an input that is not too long.
fn watch_input(heap: Global, input: &[u8]) -> Result<Vec<Line>, AllocError>
    requires { length input.now ≤ 32768 }
    ensures { IfOk result (λ v. Watched input.now v.items) }
{
    match read_rules_text(input) {
        Ok(rules) => {
            let mut rows = [BLANK; MOST_STATES];
            watch_log(heap, rules, input, TableRecord::new(&mut rows))
        }
        Err(fault) => only(heap, Line::refused(fault, fault.place())),
    }
}

// The lines that are printed of an input: a rules text and trace lines.
#[tactic(auto, using(crate::proofs::Unique::one_output, crate::proofs::GoingOn::prints_first))]
pub fn watch(heap: Global, input: &[u8]) -> Result<Vec<Line>, AllocError>
    ensures lines { IfOk result (λ v. Watched input.now v.items) }
    ensures only { IfOk result (λ v. Only input.now v.items) }
    ensures first { IfOk result (λ v. PrintsFirst input.now v.items) }
{
    if input.len() > MOST_BYTES {
        return only(heap, Line::refused(Refusal::MemoryTooShort, 0));
    }
    watch_input(heap, input)
}
