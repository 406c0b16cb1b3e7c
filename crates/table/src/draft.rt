ghost use Rattle.std.specs.Prelude.{◌≡◌, ◌≤◌, length, take};
ghost use Rattle.logic.specs.Tables.{OrderlyTable, Flagged};
ghost use Rattle.table.specs.Order.{EachRuled, OrderlyTable-prop};

use logic::types::{Formula, Rule};

// The most formulas of a table.
pub const MOST_FORMULAS: usize = 64;

// The most rules of a table.
pub const MOST_RULES: usize = 16;

// A table under construction: up to 64 formulas, of which each is flagged if it is loose, and up to 16 rules. The memory is
// fixed, without a heap. Flags beside the formulas: a list of pairs would lend no slice of formulas, which labelling takes, and
// is no plainer.
#[derive(Drop, Clone, Copy)]
pub struct Draft {
    pub(crate) formulas: [Formula; MOST_FORMULAS],
    pub(crate) loose: [bool; MOST_FORMULAS],
    pub(crate) count: usize,
    pub(crate) rules: [Rule; MOST_RULES],
    pub(crate) rule_count: usize,
    ghost wide: { length formulas ≡ 64 },
    ghost flags: { length loose ≡ 64 },
    ghost long: { length rules ≡ 16 },
    ghost few: { count ≤ 64 },
    ghost some: { rule_count ≤ 16 },
    ghost orderly: { OrderlyTable (take count formulas) } by { OrderlyTable-prop (take count formulas) },
    ghost flagged: { Flagged (take count formulas) loose count },
    ghost ruled: { EachRuled (take count formulas) (take rule_count rules) },
}
