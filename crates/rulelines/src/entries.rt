ghost use Rattle.fields.specs.Readers.{ReadsForm};
ghost use Rattle.rulelines.specs.Formulas.{formula_kind};

use fields::values::Fields;
use keys::FormulaKey;
use words::Operator;

// What a formula line shows: the formula's number, its operator and the operator's two numbers, as they stand.
#[derive(Drop, Clone, Copy, PartialEq, Eq, Debug)]
pub struct Entry {
    pub number: u64,
    pub operator: Operator,
    pub a: u64,
    pub b: u64,
}

// The entry that a formula line shows. `formula_kind 0` stands for the kind of any number: the form of a line does not depend
// on the number that is due.
pub(crate) fn entry_of(line: &[u8]) -> Option<Entry>
    ensures { ReadsForm (formula_kind 0) (λ v. v) line.now result }
{
    let mut fields = Fields::of(line);
    let number = fields.number(FormulaKey::Number)?;
    let operator = fields.operator(FormulaKey::Operator)?;
    let a = fields.number(FormulaKey::First)?;
    let b = fields.number(FormulaKey::Second)?;
    fields.is_at_end().then_some(Entry {
        number,
        operator,
        a,
        b,
    })
}
