// The words of the operators, recognised byte by byte.
#![tactic(auto)]

pub mod letters;

ghost use Rattle.std.specs.Prelude.{◌≡◌, MatchOption, ◌≢◌};
ghost use Rattle.words.specs.Words.{word as word_of};
ghost use Rattle.words.specs.declared.Operator.{Operator};

use crate::letters::{A, B, C, D, E, G, I, K, L, M, N, O, P, R, S, T, U, V, X};

// The operators of formulas; a nominal's word is `mark`, and that of a state-referencing proposition `link`.
#[derive(Drop, Clone, Copy, PartialEq, Eq, Debug)]
pub enum Operator {
    True,
    Signal,
    Nominal,
    Not,
    And,
    Or,
    Next,
    Previous,
    Until,
    Since,
    At,
    Variable,
    Reference,
    Bind,
    Some,
}

// The operator that a word names.
pub fn named(word: &[u8]) -> Option<Operator>
    ensures { MatchOption result ((o : Operator) → word.now ≢ word_of o) (λ o. word.now ≡ word_of o) }
{
    match word {
        [T, R, U, E] => Some(Operator::True),
        [S, I, G, N, A, L] => Some(Operator::Signal),
        [M, A, R, K] => Some(Operator::Nominal),
        [N, O, T] => Some(Operator::Not),
        [A, N, D] => Some(Operator::And),
        [O, R] => Some(Operator::Or),
        [N, E, X, T] => Some(Operator::Next),
        [P, R, E, V] => Some(Operator::Previous),
        [U, N, T, I, L] => Some(Operator::Until),
        [S, I, N, C, E] => Some(Operator::Since),
        [A, T] => Some(Operator::At),
        [V, A, R] => Some(Operator::Variable),
        [L, I, N, K] => Some(Operator::Reference),
        [B, I, N, D] => Some(Operator::Bind),
        [S, O, M, E] => Some(Operator::Some),
        _ => None,
    }
}
