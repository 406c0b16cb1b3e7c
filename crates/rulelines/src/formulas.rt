ghost use Rattle.fields.specs.Readers.{GivenIf, ReadsMeaning};
ghost use Rattle.rulelines.specs.Formulas.{Ranged, formula_kind};
ghost use Rattle.rulelines.specs.Meanings.{meaning};

use crate::entries::{Entry, entry_of};
use crate::operands::{formula_of, in_range};
use faults::line::LineFault;
use fields::lines::{Taken, read_line};
use logic::types::Formula;

// The formula of an entry, if it has number k and its operator's numbers are in their ranges.
fn formula_in(entry: Entry, k: usize) -> Option<Formula>
    ensures { GivenIf (Ranged k entry) (meaning entry) result }
{
    // A cast, since no `From` leads from `usize` to `u64`.
    if entry.number != k as u64 || !in_range(entry.operator, entry.a, entry.b) {
        return None;
    }
    Some(formula_of(entry.operator, entry.a, entry.b))
}

// The formula that the first line of a text shows as number k; `place` is the line's, for a refusal.
pub fn read_formula(text: &[u8], place: usize, k: usize) -> Result<Taken<Formula>, LineFault>
    ensures { ReadsMeaning (formula_kind k) meaning text.now place result }
{
    read_line(text, place, entry_of, |entry| formula_in(entry, k))
}
