// A label, asked for point by point.
ghost use Rattle.std.specs.Prelude.{◌≡◌};
ghost use Rattle.published.specs.Asking.{dated_at, label_told};

use expectations::types::{Label, Verdict};
use monitor::live::Monitor;
use records::growing::Growing;
use records::readable::Readable;
use refusals::Refusal;

// The label that reads so from this point on, and is unknown before it.
fn dated(verdict: Verdict, point: usize) -> Label
    ensures { result ≡ dated_at verdict point }
{
    match verdict {
        Verdict::Unknown => Label::Unknown,
        Verdict::True => Label::TrueFrom(point),
        Verdict::False => Label::FalseFrom(point),
    }
}

// The label of a formula at a state, with the first truncation point at which the monitor's answer is decided.
pub(crate) fn label_of<R: Growing>(
    monitor: &Monitor<R>,
    formula: usize,
    state: usize,
) -> Result<Label, Refusal>
    ensures { result ≡ label_told monitor.now formula state }
{
    let last = monitor.count();
    for point in state..last {
        let verdict = monitor.label(formula, state, point)?;
        if verdict != Verdict::Unknown {
            return Ok(dated(verdict, point));
        }
    }
    Ok(dated(monitor.label(formula, state, last)?, last))
}
