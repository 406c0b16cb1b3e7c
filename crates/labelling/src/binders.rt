// The labels of formulas that bind the variable. A loose formula has no labels of its own: its row is filled anew for each
// binding that a formula above it needs, and only if that formula is made of it.
ghost use Rattle.std.specs.Prelude.{◌≡◌, ◌+◌, ◌*◌, ◌<◌, false, length};
ghost use Rattle.logic.specs.Logic.{bind, some'};
ghost use Rattle.logic.specs.Tables.{loose};
ghost use Rattle.labelling.specs.Jobs.{ToldFree, Known, KnownBound, Widened, total, tree_at, bound_part};

use crate::job::{Binder, Job};
use crate::rows::row_of;
use labels::LabelKind;
use logic::types::{Formula, Reference};

// What the cells of the formulas before tell stands in the clauses, since they are lent to each call.
impl<'a> Binder<'a> {
    // Labels the wanted formulas, which are loose, with the variable bound to v.
    fn label_bound<K: LabelKind + Copy>(&self, v: usize, before: &mut [K])
        requires room { length before.old ≡ self.now.f * self.now.job.now.n }
        requires known { Known K.reads K.reach self.now.job.now before.old self.now.f }
        ensures told { KnownBound K.reads K.reach self.now v before.new }
    {
        let n = self.job.n;
        for (g, wanted) in self.wanted[..self.f].iter().enumerate() {
            if *wanted {
                let (low, rest) = before.split_at_mut(g * n);
                self.job.label_row(v, g, low, &mut rest[..n]);
            }
        }
    }

    // Labels the formula, a `bind`.
    fn label_bind<K: LabelKind + Copy>(&self, before: &mut [K], own: &mut [K])
        requires room { (length before.old ≡ self.now.f * self.now.job.now.n) × (length own.old ≡ self.now.job.now.n) }
        requires known { Known K.reads K.reach self.now.job.now before.old self.now.f }
        ensures known { Known K.reads K.reach self.now.job.now before.new self.now.f }
        ensures told { ToldFree K.reads K.reach self.now.job.now (bind (bound_part self.now)) own.new }
    {
        // By place: for each state the part's row is filled anew, and its label is read at that state.
        for (p, cell) in own.iter_mut().enumerate() {
            self.label_bound(p + 1, before);
            *cell = row_of(self.job.n, self.part, before)[p];
        }
    }

    // Adds to a label what the part says at place p with the variable bound to the reference's target, if the reference is of the
    // kind.
    fn label_through<K: LabelKind + Copy>(
        &self,
        p: usize,
        kind: u8,
        reference: Reference,
        so_far: K,
        before: &mut [K],
    ) -> K
        requires fit { p < self.now.job.now.n }
        requires room { length before.old ≡ self.now.f * self.now.job.now.n }
        requires known { Known K.reads K.reach self.now.job.now before.old self.now.f }
        ensures known { Known K.reads K.reach self.now.job.now before.new self.now.f }
        ensures told { Widened K.reads K.reach self.now kind reference (p + 1) so_far result }
    {
        if reference.kind != kind {
            return so_far;
        }
        self.label_bound(usize::from(reference.target), before);
        so_far.or(row_of(self.job.n, self.part, before)[p])
    }

    // Labels the formula, a `some` over references of the kind.
    fn label_some<K: LabelKind + Copy>(&self, kind: u8, before: &mut [K], own: &mut [K])
        requires kind { 0 < kind }
        requires room { (length before.old ≡ self.now.f * self.now.job.now.n) × (length own.old ≡ self.now.job.now.n) }
        requires known { Known K.reads K.reach self.now.job.now before.old self.now.f }
        ensures known { Known K.reads K.reach self.now.job.now before.new self.now.f }
        ensures told { ToldFree K.reads K.reach self.now.job.now (some' kind (bound_part self.now)) own.new }
    {
        for (p, cell) in own.iter_mut().enumerate() {
            let state = self.job.states[p];
            let none = K::false_from(p + 1);
            let one = self.label_through(p, kind, state.first, none, before);
            *cell = self.label_through(p, kind, state.second, one, before);
        }
    }
}

impl<'a> Job<'a> {
    // Formula f, which binds the variable in a part, with the loose formulas that the part is made of.
    fn binder(&self, f: usize, part: usize) -> Binder<'_>
        requires { (f < length self.now.table.now) × (part < f) }
        ensures { (result.job.now ≡ self.now) × (result.f ≡ f) × (result.part ≡ part) }
    {
        Binder {
            job: self,
            f,
            part,
            wanted: self.cone(part),
        }
    }

    // Labels formula f, which is not loose, from the formulas before it that are not loose.
    fn label_closed<K: LabelKind + Copy>(&self, f: usize, before: &mut [K], own: &mut [K])
        requires fit { (f < length self.now.table.now) × (loose self.now.table.now f ≡ false) }
        requires room { (length before.old ≡ f * self.now.n) × (length own.old ≡ self.now.n) }
        requires known { Known K.reads K.reach self.now before.old f }
        ensures known { Known K.reads K.reach self.now before.new f }
        ensures told { ToldFree K.reads K.reach self.now (tree_at self.now f) own.new }
    {
        match self.table[f] {
            Formula::Bind(part) => self.binder(f, part).label_bind(before, own),
            Formula::Some(kind, part) => self.binder(f, part).label_some(kind, before, own),
            _ => self.label_row(0, f, before, own),
        }
    }

    // Labels each formula that is not loose. What the cells of loose formulas hold afterwards says nothing.
    pub(crate) fn label_table<K: LabelKind + Copy>(&self, cells: &mut [K])
        requires room { length cells.old ≡ total self.now }
        ensures told { Known K.reads K.reach self.now cells.new (length self.now.table.now) }
    {
        for (f, loose) in self.flags.iter().enumerate() {
            if !*loose {
                let (before, rest) = cells.split_at_mut(f * self.n);
                self.label_closed(f, before, &mut rest[..self.n]);
            }
        }
    }
}
