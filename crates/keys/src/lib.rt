// The keys of the texts' lines, recognised byte by byte.
#![tactic(auto)]

ghost use Rattle.std.specs.Prelude.{ℕ, List};
ghost use Rattle.keys.specs.Keys.{count_text, trace_text, formula_text, rule_text};
ghost use Rattle.keys.specs.Found.{AfterKey};

use words::letters::{A, B, C, E, F, G, H, I, K, L, M, N, O, P, R, S, T, U, W, X};

// Stands before each key but the first of a line, and so after each field but the last.
pub const SPACE: u8 = b' ';

const EQUALS: u8 = b'=';

// A key of a line.
pub trait LineKey: Sized {
    // the key as it is written
    ghost written: { Self → List ℕ };

    // What follows the key in a text that begins with it.
    fn after(self, text: &[u8]) -> Option<&[u8]>
        ensures { AfterKey text.now (written self) result };
}

// The keys of the lines that count formulas and rules.
#[derive(Drop, Clone, Copy, PartialEq, Eq, Debug)]
pub enum CountKey {
    Formulas,
    Rules,
}

// The keys of a trace line.
#[derive(Drop, Clone, Copy, PartialEq, Eq, Debug)]
pub enum TraceKey {
    State,
    Signals,
    Mark,
    FirstKind,
    FirstTarget,
    SecondKind,
    SecondTarget,
}

// The keys of a formula line.
#[derive(Drop, Clone, Copy, PartialEq, Eq, Debug)]
pub enum FormulaKey {
    Number,
    Operator,
    First,
    Second,
}

// The keys of a rule line.
#[derive(Drop, Clone, Copy, PartialEq, Eq, Debug)]
pub enum RuleKey {
    Number,
    When,
    Expect,
}

impl LineKey for CountKey {
    ghost written = { count_text };

    fn after(self, text: &[u8]) -> Option<&[u8]> {
        match (self, text) {
            (CountKey::Formulas, [F, O, R, M, U, L, A, S, EQUALS, rest @ ..]) => Some(rest),
            (CountKey::Rules, [R, U, L, E, S, EQUALS, rest @ ..]) => Some(rest),
            _ => None,
        }
    }
}

impl LineKey for TraceKey {
    ghost written = { trace_text };

    fn after(self, text: &[u8]) -> Option<&[u8]> {
        match (self, text) {
            (TraceKey::State, [S, EQUALS, rest @ ..]) => Some(rest),
            (TraceKey::Signals, [SPACE, S, I, G, N, A, L, S, EQUALS, rest @ ..]) => Some(rest),
            (TraceKey::Mark, [SPACE, M, A, R, K, EQUALS, rest @ ..]) => Some(rest),
            (TraceKey::FirstKind, [SPACE, K, A, EQUALS, rest @ ..]) => Some(rest),
            (TraceKey::FirstTarget, [SPACE, T, A, EQUALS, rest @ ..]) => Some(rest),
            (TraceKey::SecondKind, [SPACE, K, B, EQUALS, rest @ ..]) => Some(rest),
            (TraceKey::SecondTarget, [SPACE, T, B, EQUALS, rest @ ..]) => Some(rest),
            _ => None,
        }
    }
}

impl LineKey for FormulaKey {
    ghost written = { formula_text };

    fn after(self, text: &[u8]) -> Option<&[u8]> {
        match (self, text) {
            (FormulaKey::Number, [F, EQUALS, rest @ ..]) => Some(rest),
            (FormulaKey::Operator, [SPACE, O, P, EQUALS, rest @ ..]) => Some(rest),
            (FormulaKey::First, [SPACE, A, EQUALS, rest @ ..]) => Some(rest),
            (FormulaKey::Second, [SPACE, B, EQUALS, rest @ ..]) => Some(rest),
            _ => None,
        }
    }
}

impl LineKey for RuleKey {
    ghost written = { rule_text };

    fn after(self, text: &[u8]) -> Option<&[u8]> {
        match (self, text) {
            (RuleKey::Number, [R, EQUALS, rest @ ..]) => Some(rest),
            (RuleKey::When, [SPACE, W, H, E, N, EQUALS, rest @ ..]) => Some(rest),
            (RuleKey::Expect, [SPACE, E, X, P, E, C, T, EQUALS, rest @ ..]) => Some(rest),
            _ => None,
        }
    }
}
