// The lines of a rules text: counts, formulas and rules.
#![tactic(auto)]

pub mod counts;
pub mod entries;
pub mod formulas;
pub mod operands;
pub mod rules;
