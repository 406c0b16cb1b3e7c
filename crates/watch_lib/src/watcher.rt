// A monitor while the lines of a log are taken.
ghost use Rattle.std.specs.Prelude.{◌≡◌, ◌≤◌, [], length};
ghost use Rattle.monitor.specs.Live.{table_rules, Own, IsNew};

use monitor::live::Monitor;
use records::growing::Growing;
use records::readable::Readable;
use table::finished::Table;

// The monitor has labelled every state of its record. `rules` is how many rules it has.
#[derive(Drop)]
pub(crate) struct Watcher<R: Growing> {
    pub(crate) monitor: Monitor<R>,
    pub(crate) rules: usize,
    ghost own: { Own monitor },
    ghost ruled: { rules ≡ length (table_rules monitor) },
    ghost few: { rules ≤ 16 },
}

impl<R: Growing> Watcher<R> {
    // A new monitor over a table and an empty record.
    pub(crate) fn new(table: Table, log: R) -> Watcher<R>
        requires empty { R.Readable.states log ≡ [] }
        ensures { IsNew table log result.monitor }
    {
        let rules = table.rules().len();
        Watcher {
            monitor: Monitor::new(table, log),
            rules,
        }
    }
}
