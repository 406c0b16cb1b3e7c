ghost use Rattle.std.specs.Prelude.{◌<◌};

use crate::draft::Draft;

// A table: 1 to 64 formulas and 1 to 16 rules.
#[derive(Drop, Clone, Copy)]
pub struct Table {
    pub(crate) draft: Draft,
    ghost told: { 0 < draft.count },
    ghost ruled: { 0 < draft.rule_count },
}
