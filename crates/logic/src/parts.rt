// The parts of a formula, one by one.
ghost use Rattle.std.specs.Prelude.{◌≡◌};
ghost use Rattle.std.specs.List.{flat_map};
ghost use Rattle.std.specs.Option.{option_to_list};
ghost use Rattle.logic.specs.Tables.{parts_of};

use crate::types::Formula;

impl Formula {
    // The numbers of the parts: two, one or none.
    pub fn parts(self) -> [Option<usize>; 2]
        ensures { flat_map option_to_list result ≡ parts_of self }
    {
        match self {
            Formula::And(a, b) | Formula::Or(a, b) | Formula::Until(a, b) | Formula::Since(a, b) =>
                [Some(a), Some(b)],
            Formula::Not(a)
            | Formula::Next(a)
            | Formula::Previous(a)
            | Formula::At(_, a)
            | Formula::Bind(a)
            | Formula::Some(_, a) => [Some(a), None],
            Formula::True
            | Formula::Signal(_)
            | Formula::Nominal(_)
            | Formula::Variable
            | Formula::Reference(_) => [None, None],
        }
    }
}
