// The line at the end of a log.
ghost use Rattle.std.specs.Prelude.{◌≡◌, ◌<◌, length};
ghost use Rattle.monitor.specs.Live.{ground_of, table_rules, states_of, tally_at};
ghost use Rattle.watch_lib.specs.Sums.{plus as sum_of, Few};
ghost use Rattle.watch_lib.specs.Watched.{closing_line};

use crate::lines::Line;
use crate::watcher::Watcher;
use expectations::types::Tally;
use records::growing::Growing;
use records::readable::Readable;

// Not `Add`: the type is another crate's. At most 16 tallies of 256 are added up, which is below 65536; any such bound
// serves, so that no sum wraps.
fn plus(a: Tally, b: Tally) -> Tally
    requires few { Few 65536 a }
    requires fewer { Few 256 b }
    ensures { result ≡ sum_of a b }
{
    Tally {
        raised: a.raised + b.raised,
        pending: a.pending + b.pending,
        fulfilled: a.fulfilled + b.fulfilled,
        violated: a.violated + b.violated,
    }
}

impl<R: Growing> Watcher<R> {
    // The tally of a rule that is there.
    fn tally_of(&self, rule: usize) -> Tally
        requires { rule < length (table_rules self.now.monitor) }
        ensures counts { result ≡ tally_at self.now.monitor rule }
        ensures few { Few 256 result }
    {
        // Never refused: the rule is there.
        self.monitor.tally(rule).unwrap_or_default()
    }

    // The end line after the states that were accepted.
    pub(crate) fn end_line(&self) -> Line
        ensures { result ≡ closing_line (ground_of self.now.monitor) (states_of self.now.monitor) }
    {
        let mut tally = Tally::default();
        // By number: a monitor is asked for the tally of rule k. Not by `fold`: what a sum has to stay below is said in the
        // loop's invariant, and the closure would need it as a clause of its own.
        for k in 0..self.rules {
            tally = plus(tally, self.tally_of(k));
        }
        Line::End {
            states: self.monitor.count(),
            tally,
        }
    }
}
