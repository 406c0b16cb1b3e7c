ghost use Rattle.std.specs.Prelude.{◌≡◌, ◌≤◌, []};
ghost use Rattle.table.specs.Tables.{formulas_of, rules_of};
ghost use Rattle.rulestexts.specs.Texts.{ReadsFormulas, ReadsRules};

use crate::joins::{join_formula, join_rule};
use faults::read::ReadFault;
use keys::CountKey;
use rulelines::counts::read_count;
use rulelines::formulas::read_formula;
use rulelines::rules::read_rule;
use table::draft::{Draft, MOST_FORMULAS, MOST_RULES};

// What was read so far: the table under construction, how many lines joined it, and the text that follows them. The count
// stands beside the draft, which tells its own to no other crate.
#[derive(Drop, Clone, Copy)]
pub(crate) struct Section<'a> {
    pub(crate) draft: Draft,
    pub(crate) count: usize,
    pub(crate) rest: &'a [u8],
}

// The two readers below count the lines, since a line is given its number and its place. They stay apart: one loop for both
// would take from its caller what a line is, how it joins and what the promise says of it, which is more than each of them
// has.

// The formulas that a text begins with.
#[tactic(auto, using(crate::proofs::Progress::formulas_begin))]
pub(crate) fn read_formulas(text: &[u8]) -> Result<Section<'_>, ReadFault>
    ensures { ReadsFormulas text.now result }
{
    let head = read_count(text, 1, CountKey::Formulas, MOST_FORMULAS)?;
    let mut draft = Draft::new();
    let mut rest = &text[head.used..];
    for k in 0..head.value {
        let line = read_formula(rest, k + 2, k)?;
        join_formula(&mut draft, line.value, k + 2)?;
        rest = &rest[line.used..];
    }
    Ok(Section {
        draft,
        count: head.value,
        rest,
    })
}

// The rules that a text begins with, over the formulas read before; `place` is that of the first line, at most 66: before it
// stand the count of formulas and at most 64 of them. So no number of a line wraps.
pub(crate) fn read_rules(
    text: &[u8],
    place: usize,
    formulas: Draft,
) -> Result<Section<'_>, ReadFault>
    requires ruleless { rules_of formulas ≡ [] }
    requires place { place ≤ 66 }
    ensures { ReadsRules (formulas_of formulas) text.now place result }
{
    let head = read_count(text, place, CountKey::Rules, MOST_RULES)?;
    let mut draft = formulas;
    let mut rest = &text[head.used..];
    for k in 0..head.value {
        let line = read_rule(rest, place + 1 + k, k)?;
        join_rule(&mut draft, line.value, place + 1 + k)?;
        rest = &rest[line.used..];
    }
    Ok(Section {
        draft,
        count: head.value,
        rest,
    })
}
