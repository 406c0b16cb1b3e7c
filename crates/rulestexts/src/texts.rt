ghost use Rattle.std.specs.Prelude.{List};
ghost use Rattle.rulelines.specs.declared.entries.Entry.{Entry};
ghost use Rattle.rulestexts.specs.Texts.{FormulasRead, Reads};

use crate::sections::{Section, read_formulas, read_rules};
use faults::line::LineFault;
use faults::read::ReadFault;
use fields::lines::Taken;
use table::finished::Table;

// The table of the formulas that a text begins with and the rules after them.
fn read_rest(text: &[u8], formulas: Section) -> Result<Taken<Table>, ReadFault>
    requires { (vs : List Entry) × FormulasRead text.now formulas vs }
    ensures { Reads text.now result }
{
    let rules = read_rules(formulas.rest, formulas.count + 2, formulas.draft)?;
    // A refusal never comes: each block that was read has a line at least.
    let table = rules.draft.finish().map_err(|_| LineFault::Range(1))?;
    Ok(Taken {
        value: table,
        used: text.len() - rules.rest.len(),
    })
}

// The table that a text begins with.
pub fn read_rules_text(text: &[u8]) -> Result<Taken<Table>, ReadFault>
    ensures { Reads text.now result }
{
    let formulas = read_formulas(text)?;
    read_rest(text, formulas)
}
