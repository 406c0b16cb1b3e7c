// The answers in the product's words.
ghost use Rattle.std.specs.Prelude.{◌≡◌, Some};
ghost use Rattle.expectations.specs.Words.{of_verdict, of_standing, of_event, notice_text, tally_text};

use crate::types::{Event, Notice, Standing, Tally, Verdict};
use std::fmt;

impl Verdict {
    // Beside `Display`, which is made of it, here and below: a caller may want the word itself, and no public function goes.
    pub fn word(self) -> &'static str
        ensures { result.now ≡ (of_verdict self).word }
    {
        match self {
            Verdict::True => "true",
            Verdict::False => "false",
            Verdict::Unknown => "open",
        }
    }
}

impl Standing {
    pub fn word(self) -> &'static str
        ensures { result.now ≡ (of_standing self).word }
    {
        match self {
            Standing::NotRaised => "not raised",
            Standing::Pending => "open",
            Standing::Fulfilled(_) => "fulfilled",
            Standing::Violated(_) => "violated",
        }
    }

    // The date of the decision, or 0, which an answer without one has.
    pub fn date(self) -> usize
        ensures { result ≡ (of_standing self).date }
    {
        match self {
            Standing::NotRaised | Standing::Pending => 0,
            Standing::Fulfilled(date) | Standing::Violated(date) => date,
        }
    }
}

impl Event {
    pub fn word(self) -> &'static str
        ensures { result.now ≡ (of_event self).word }
    {
        match self {
            Event::Raising => "raised",
            Event::Fulfilling => "fulfilled",
            Event::Violating => "violated",
        }
    }
}

impl fmt::Display for Verdict {
    ghost output = { λ x. Some (of_verdict x).word };

    fn fmt<W: fmt::Write>(&self, f: &mut fmt::Formatter<W>) -> fmt::Result {
        f.write_str(Verdict::word(*self))
    }
}

impl fmt::Display for Standing {
    ghost output = { λ x. Some (of_standing x).word };

    fn fmt<W: fmt::Write>(&self, f: &mut fmt::Formatter<W>) -> fmt::Result {
        f.write_str(Standing::word(*self))
    }
}

impl fmt::Display for Event {
    ghost output = { λ x. Some (of_event x).word };

    fn fmt<W: fmt::Write>(&self, f: &mut fmt::Formatter<W>) -> fmt::Result {
        f.write_str(Event::word(*self))
    }
}

// The rule, the state that raised the expectation, and what happened.
impl fmt::Display for Notice {
    ghost output = { λ x. Some (notice_text x) };

    fn fmt<W: fmt::Write>(&self, f: &mut fmt::Formatter<W>) -> fmt::Result {
        let Notice { rule, from, event } = *self;
        write!(f, "r={rule} from={from} is={event}")
    }
}

// How many expectations are raised, fulfilled, violated and pending.
impl fmt::Display for Tally {
    ghost output = { λ x. Some (tally_text x) };

    fn fmt<W: fmt::Write>(&self, f: &mut fmt::Formatter<W>) -> fmt::Result {
        let Tally {
            raised,
            pending,
            fulfilled,
            violated,
        } = *self;
        write!(
            f,
            "raised={raised} fulfilled={fulfilled} violated={violated} open={pending}"
        )
    }
}
