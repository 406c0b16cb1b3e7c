// A labelling at work, and the labelling of one formula that binds the variable. The structs stand apart from what they do, so that
// the clauses there can speak of them by relations (specs/Jobs.antt).
ghost use Rattle.std.specs.Prelude.{◌≡◌, ◌<◌, ◌≤◌, length};
ghost use Rattle.logic.specs.States.{state_at};
ghost use Rattle.logic.specs.Lawful.{LawfulTo};
ghost use Rattle.logic.specs.Tables.{OrderlyTable, Flagged};
ghost use Rattle.table.specs.Order.{OrderlyTable-prop};
ghost use Rattle.labelling.specs.Props.{Cone-prop};
ghost use Rattle.labelling.specs.Bound.{Ready, Cone};

use logic::types::{Formula, State};
use table::draft::MOST_FORMULAS;

// What a labelling goes by: n lawful states, which were read from a record once, and a table in order with the flag of each
// formula, whether it is loose.
#[derive(Drop)]
pub(crate) struct Job<'a> {
    pub(crate) states: &'a [State],
    pub(crate) n: usize,
    pub(crate) table: &'a [Formula],
    // Beside the formulas, as the table lends them: pairs would be a copy.
    pub(crate) flags: &'a [bool],
    ghost count: { n ≡ length states.now },
    ghost lawful: { LawfulTo n (state_at states.now) },
    ghost few: { length table.now ≤ 64 },
    ghost orderly: { OrderlyTable table.now } by { OrderlyTable-prop table.now },
    ghost each: { length flags.now ≡ length table.now },
    ghost flagged: { Flagged table.now flags.now (length table.now) },
}

// Formula f, which binds the variable in a part, and the loose formulas which that part is made of.
#[derive(Drop)]
pub(crate) struct Binder<'a> {
    pub(crate) job: &'a Job<'a>,
    pub(crate) f: usize,
    pub(crate) part: usize,
    pub(crate) wanted: [bool; MOST_FORMULAS],
    ghost within: { f < length job.now.table.now },
    ghost below: { part < f },
    ghost cone: { Cone job.now.table.now wanted f } by { Cone-prop job.now.table.now wanted f },
    ghost ready: { Ready job.now.table.now wanted part },
}
