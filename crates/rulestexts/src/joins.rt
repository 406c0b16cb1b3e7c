// Adding a formula or a rule that a line shows; `place` is the line's, for a refusal.
ghost use Rattle.std.specs.Prelude.{◌<◌, length};
ghost use Rattle.logic.specs.Tables.{InRange};
ghost use Rattle.table.specs.Tables.{formulas_of, rules_of};
ghost use Rattle.rulestexts.specs.Texts.{FormulaJoins, RuleJoins};

use faults::table::TableFault;
use logic::types::{Formula, Rule};
use table::defects::Defect;
use table::draft::Draft;

pub(crate) fn join_formula(
    draft: &mut Draft,
    formula: Formula,
    place: usize,
) -> Result<(), TableFault>
    requires room { length (formulas_of draft.old) < 64 }
    requires range { InRange formula }
    ensures { FormulaJoins draft.old formula place result draft.new }
{
    draft
        .add_formula(formula)
        .map(|_| ())
        .map_err(|_| TableFault::Dangling(place))
}

pub(crate) fn join_rule(draft: &mut Draft, rule: Rule, place: usize) -> Result<(), TableFault>
    requires { length (rules_of draft.old) < 16 }
    ensures { RuleJoins draft.old rule place result draft.new }
{
    draft
        .add_rule(rule)
        .map(|_| ())
        .map_err(|defect| match defect {
            Defect::LooseRule => TableFault::Loose(place),
            _ => TableFault::Dangling(place),
        })
}
