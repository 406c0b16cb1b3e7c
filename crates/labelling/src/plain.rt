// The labels of one formula that binds no variable.
ghost use Rattle.std.specs.Prelude.{◌≡◌, ℕ, ◌+◌, ◌*◌, ◌/◌, ◌%◌, ◌^◌, ◌<◌, ◌≤◌, Bool, true, false, length, Decides, ◌≢◌, slice_index_or};
ghost use Rattle.labels.specs.Readings.{Same, fixed};
ghost use Rattle.logic.specs.declared.types.Formula.TheVariants.{True, Variable};
ghost use Rattle.logic.specs.States.{state_at};
ghost use Rattle.logic.specs.Logic.{Tree, Shows, Carries, Refers};
ghost use Rattle.logic.specs.Tables.{node, binds, InRange};
ghost use Rattle.labelling.specs.Tells.{NamedState, DecidedRow, leaf};
ghost use Rattle.labelling.specs.Jobs.{Told, PartsTold, tree_at};

use crate::job::Job;
use crate::rows::{
    fill_row, label_and, label_named, label_next, label_not, label_or, label_previous, label_since,
    label_until, row_of,
};
use labels::LabelKind;
use logic::types::{Formula, State};

fn is_on(signals: u32, b: u8) -> bool
    requires { b < 32 }
    ensures { Decides result (signals / 2 ^ b % 2 ≡ 1) }
{
    (signals >> b) % 2 == 1
}

fn refers(state: State, kind: u8, v: usize) -> bool
    requires { 0 < kind }
    ensures { Decides result (Refers state kind v) }
{
    (state.first.kind == kind && usize::from(state.first.target) == v)
        || (state.second.kind == kind && usize::from(state.second.target) == v)
}

// The label that is decided from point i on.
fn decided<K: LabelKind>(value: bool, i: usize) -> K
    ensures { Same K.reach (K.reads result) (fixed i value) }
{
    if value {
        K::true_from(i)
    } else {
        K::false_from(i)
    }
}

// Fills a row with labels that are decided at their own states, as `holds` says of each place.
fn decide_row<K: LabelKind + Copy, F: Fn(usize) -> bool>(own: &mut [K], holds: F)
    requires callable { (p : ℕ) → p < length own.old → F.pre holds p }
    ensures decided { DecidedRow K.reads K.reach (F.post holds) own.new }
{
    fill_row(
        own,
        |p|
            requires { (p + 1 < 2 ^ 64) × F.pre holds p }
            ensures { (b : Bool) × F.post holds p b × Same K.reach (K.reads result) (fixed (p + 1) b) }
        { decided(holds(p), p + 1) },
    );
}

impl<'a> Job<'a> {
    // Labels a formula that the states themselves show. The case is chosen once for the row, and not for each state.
    fn label_shown<K: LabelKind + Copy>(&self, formula: Formula, v: usize, own: &mut [K])
        requires known { InRange formula × (leaf formula ≡ true) × (formula ≢ True) × (formula ≢ Variable) }
        requires long { length own.old ≡ self.now.n }
        ensures told { (parts : ℕ → Tree) → Told K.reads K.reach self.now v (node formula parts) own.new }
    {
        let states = self.states;
        match formula {
            Formula::Signal(b) => decide_row(
                own,
                |p|
                    requires { (p < length states.now) × (b < 32) }
                    ensures { Decides result (Shows (state_at states.entry.now (p + 1)) b) }
                { is_on(states[p].signals, b) },
            ),
            Formula::Nominal(a) => decide_row(
                own,
                |p|
                    requires { (p < length states.now) × (0 < a) }
                    ensures { Decides result (Carries (state_at states.entry.now (p + 1)) a) }
                { states[p].nominal == a },
            ),
            Formula::Reference(kind) => decide_row(
                own,
                |p|
                    requires { (p < length states.now) × (0 < kind) }
                    ensures { Decides result (Refers (state_at states.entry.now (p + 1)) kind v) }
                { refers(states[p], kind, v) },
            ),
            _ => {}
        }
    }

    // Labels a formula without parts.
    fn label_here<K: LabelKind + Copy>(&self, formula: Formula, v: usize, own: &mut [K])
        requires known { InRange formula × (leaf formula ≡ true) }
        requires long { length own.old ≡ self.now.n }
        ensures told { (parts : ℕ → Tree) → Told K.reads K.reach self.now v (node formula parts) own.new }
    {
        match formula {
            Formula::True => decide_row(
                own,
                |_|
                    ensures { result ≡ true }
                { true },
            ),
            Formula::Variable => decide_row(
                own,
                |p|
                    requires { p + 1 < 2 ^ 64 }
                    ensures { Decides result (p + 1 ≡ v) }
                { p + 1 == v },
            ),
            _ => self.label_shown(formula, v, own),
        }
    }

    // The state that carries the nominal, if there is one.
    fn named_state(&self, nominal: u8) -> Option<usize>
        requires { 0 < nominal }
        ensures { NamedState (state_at self.now.states.now) self.now.n nominal result }
    {
        let place = self.states.iter().position(|q| q.nominal == nominal)?;
        Some(place + 1)
    }

    // Labels formula f, which binds no variable, with the variable bound to v, from the rows before its own.
    pub(crate) fn label_row<K: LabelKind + Copy>(
        &self,
        v: usize,
        f: usize,
        before: &[K],
        own: &mut [K],
    )
        requires fit { (f < length self.now.table.now) × (binds (slice_index_or self.now.table.now f True) ≡ false) }
        requires room { (length before.now ≡ f * self.now.n) × (length own.old ≡ self.now.n) }
        requires parts { PartsTold K.reads K.reach self.now v f before.now }
        ensures told { Told K.reads K.reach self.now v (tree_at self.now f) own.new }
    {
        let n = self.n;
        match self.table[f] {
            Formula::Not(a) => label_not(row_of(n, a, before), own),
            Formula::And(a, b) => label_and(row_of(n, a, before), row_of(n, b, before), own),
            Formula::Or(a, b) => label_or(row_of(n, a, before), row_of(n, b, before), own),
            Formula::Next(a) => label_next(row_of(n, a, before), own),
            Formula::Previous(a) => label_previous(row_of(n, a, before), own),
            Formula::Until(a, b) => label_until(row_of(n, a, before), row_of(n, b, before), own),
            Formula::Since(a, b) => label_since(row_of(n, a, before), row_of(n, b, before), own),
            Formula::At(nominal, a) => {
                label_named(row_of(n, a, before), self.named_state(nominal), own)
            }
            formula => self.label_here(formula, v, own),
        }
    }
}
