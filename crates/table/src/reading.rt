// What a table holds.
ghost use Rattle.std.specs.Prelude.{◌≡◌, ◌<◌, length};
ghost use Rattle.logic.specs.Tables.{Flagged};
ghost use Rattle.table.specs.Tables.{formulas_in, loose_in, rules_in, InOrder};

use crate::finished::Table;
use logic::types::{Formula, Rule};

impl Table {
    // The formulas, in the order of their numbers: at least one, and all of them in order.
    pub fn formulas(&self) -> &[Formula]
        ensures list { result.now ≡ formulas_in self.now }
        ensures some { 0 < length result.now }
        ensures order { InOrder result.now (rules_in self.now) }
    {
        &self.draft.formulas[..self.draft.count]
    }

    // For each formula, whether it is loose.
    pub fn loose(&self) -> &[bool]
        ensures list { result.now ≡ loose_in self.now }
        ensures count { length result.now ≡ length (formulas_in self.now) }
        ensures flagged { Flagged (formulas_in self.now) result.now (length result.now) }
    {
        &self.draft.loose[..self.draft.count]
    }

    // The rules, in the order of their numbers: at least one, and all of them in order.
    pub fn rules(&self) -> &[Rule]
        ensures list { result.now ≡ rules_in self.now }
        ensures some { 0 < length result.now }
        ensures order { InOrder (formulas_in self.now) result.now }
    {
        &self.draft.rules[..self.draft.rule_count]
    }
}
