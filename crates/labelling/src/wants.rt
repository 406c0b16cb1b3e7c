// Which loose formulas a formula is made of.
ghost use Rattle.std.specs.Prelude.{◌≡◌, ℕ, ◌+◌, ◌<◌, ◌≤◌, true, false, length, slice_index_or};
ghost use Rattle.logic.specs.declared.types.Formula.TheVariants.{True};
ghost use Rattle.logic.specs.Tables.{EachPart, binds, Orderly};
ghost use Rattle.labelling.specs.Bound.{Grown, Wanted, Ready, Cone};

use crate::job::Job;
use logic::types::Formula;
use table::draft::MOST_FORMULAS;

// Wants formula x if it is loose.
fn want(x: usize, flags: &[bool], wanted: &mut [bool])
    requires { (x < length flags.now) × (x < length wanted.old) }
    ensures grown { Grown (x + 1) flags.now wanted.old wanted.new }
    ensures ready { Wanted flags.now wanted.new x }
{
    if flags[x] {
        wanted[x] = true;
    }
}

// Wants each part of formula f that is loose.
fn want_parts(formula: Formula, f: usize, flags: &[bool], wanted: &mut [bool])
    requires { Orderly f formula × (f ≤ length flags.now) × (f ≤ length wanted.old) × (binds formula ≡ false) }
    ensures grown { Grown f flags.now wanted.old wanted.new }
    ensures ready { EachPart (Wanted flags.now wanted.new) formula }
{
    for part in formula.parts().into_iter().flatten() {
        want(part, flags, wanted);
    }
}

impl<'a> Job<'a> {
    // The loose formulas that formula a is made of.
    pub(crate) fn cone(&self, a: usize) -> [bool; MOST_FORMULAS]
        requires { a < length self.now.table.now }
        ensures cone { Cone self.now.table.now result (length self.now.table.now) }
        ensures ready { Ready self.now.table.now result a }
    {
        // One flag for each formula: fixed memory, for there is no heap.
        let mut wanted = [false; MOST_FORMULAS];
        want(a, self.flags, &mut wanted);
        // By number, from a part down to what it is made of. Not `0..=a`, over which the loop's invariant did not close.
        for g in (0..a + 1).rev() {
            if wanted[g] {
                want_parts(self.table[g], g, self.flags, &mut wanted);
            }
        }
        wanted
    }
}
