// Labels as a truncation point reads them.
ghost use Rattle.std.specs.Prelude.{◌≡◌};
ghost use Rattle.expectations.specs.Expectations.{verdict, true_from, false_from, judged};

use crate::types::{Label, Standing, Verdict};

pub fn verdict_of(label: Label, point: usize) -> Verdict
    ensures { result ≡ verdict label point }
{
    match label {
        Label::TrueFrom(date) if date <= point => Verdict::True,
        Label::FalseFrom(date) if date <= point => Verdict::False,
        _ => Verdict::Unknown,
    }
}

// The label is true from this point on, and not earlier. Two names and not one with a flag, since callers mean one of the two.
pub fn is_true_from(label: Label, point: usize) -> bool
    ensures { result ≡ true_from label point }
{
    label == Label::TrueFrom(point)
}

pub fn is_false_from(label: Label, point: usize) -> bool
    ensures { result ≡ false_from label point }
{
    label == Label::FalseFrom(point)
}

// What has become of a raised expectation, by the label of its content. Beside `verdict_of`, and not by it: a standing keeps
// the date, which a verdict has not.
pub fn judge(label: Label, point: usize) -> Standing
    ensures { result ≡ judged label point }
{
    match label {
        Label::TrueFrom(date) if date <= point => Standing::Fulfilled(date),
        Label::FalseFrom(date) if date <= point => Standing::Violated(date),
        _ => Standing::Pending,
    }
}
