// Answers as text.
ghost use Rattle.std.specs.Prelude.{Some};
ghost use Rattle.answers.specs.Texts.{answer_text};

use crate::types::Answer;
use std::fmt;

impl fmt::Display for Answer {
    ghost output = { λ x. Some (answer_text x) };

    fn fmt<W: fmt::Write>(&self, f: &mut fmt::Formatter<W>) -> fmt::Result {
        match *self {
            Answer::Number(number) => write!(f, "state={number}"),
            Answer::Reads(verdict) => write!(f, "reads={verdict}"),
            Answer::Stands(standing) => write!(f, "stands={standing} date={}", standing.date()),
            Answer::Counts(tally) => write!(f, "{tally}"),
            Answer::Tells(Some(notice)) => write!(f, "{notice}"),
            Answer::Tells(None) => write!(f, "no more"),
        }
    }
}
