// Why a formula or a rule may not join a table.
ghost use Rattle.std.specs.Prelude.{Some};
ghost use Rattle.table.specs.Words.{defect_text};

use std::fmt;

#[derive(Drop, Clone, Copy, PartialEq, Eq, Debug)]
pub enum Defect {
    // A number is out of its range, or there are too many or too few.
    OutOfRange,
    // A part's number is not below that of its formula.
    PartNotBelow,
    // A rule names a formula that is not there.
    NoSuchFormula,
    // A rule names a loose formula.
    LooseRule,
}

// The number alone, since a defect stands in no text.
impl fmt::Display for Defect {
    ghost output = { λ x. Some (defect_text x) };

    fn fmt<W: fmt::Write>(&self, f: &mut fmt::Formatter<W>) -> fmt::Result {
        write!(f, "refused={}", self.number())
    }
}
