ghost use Rattle.std.specs.Prelude.{◌≡◌, Decides};
ghost use Rattle.rulelines.specs.Operands.{column_a, column_b, Within, meant};

use fields::numbers::NUMBER_LIMIT;
use logic::types::{Formula, MOST_KIND, MOST_NOMINAL, SIGNALS};
use words::Operator;

// What one of an operator's two numbers is.
#[derive(Drop, Clone, Copy, PartialEq, Eq, Debug)]
pub enum Operand {
    Unused,
    Signal,
    Nominal,
    Kind,
    Part,
}

fn operand_a(operator: Operator) -> Operand
    ensures { result ≡ column_a operator }
{
    match operator {
        Operator::True | Operator::Variable => Operand::Unused,
        Operator::Signal => Operand::Signal,
        Operator::Nominal | Operator::At => Operand::Nominal,
        Operator::Reference | Operator::Some => Operand::Kind,
        _ => Operand::Part,
    }
}

fn operand_b(operator: Operator) -> Operand
    ensures { result ≡ column_b operator }
{
    match operator {
        Operator::And
        | Operator::Or
        | Operator::Until
        | Operator::Since
        | Operator::At
        | Operator::Some => Operand::Part,
        _ => Operand::Unused,
    }
}

fn within(operand: Operand, n: u64) -> bool
    ensures { Decides result (Within operand n) }
{
    match operand {
        Operand::Unused => n == 0,
        Operand::Signal => n < u64::from(SIGNALS),
        Operand::Nominal => (1..=u64::from(MOST_NOMINAL)).contains(&n),
        Operand::Kind => (1..=u64::from(MOST_KIND)).contains(&n),
        Operand::Part => n <= NUMBER_LIMIT,
    }
}

// Whether both numbers of an operator are in their ranges.
pub(crate) fn in_range(operator: Operator, a: u64, b: u64) -> bool
    ensures { Decides result (Within (column_a operator) a × Within (column_b operator) b) }
{
    within(operand_a(operator), a) && within(operand_b(operator), b)
}

// The formula of an operator and its numbers.
pub(crate) fn formula_of(operator: Operator, a: u64, b: u64) -> Formula
    requires { (Within (column_a operator) a) × (Within (column_b operator) b) }
    ensures { result ≡ meant operator a b }
{
    // The ranges are required, so each cast keeps its number, and no conversion could fail.
    match operator {
        Operator::True => Formula::True,
        Operator::Signal => Formula::Signal(a as u8),
        Operator::Nominal => Formula::Nominal(a as u8),
        Operator::Not => Formula::Not(a as usize),
        Operator::And => Formula::And(a as usize, b as usize),
        Operator::Or => Formula::Or(a as usize, b as usize),
        Operator::Next => Formula::Next(a as usize),
        Operator::Previous => Formula::Previous(a as usize),
        Operator::Until => Formula::Until(a as usize, b as usize),
        Operator::Since => Formula::Since(a as usize, b as usize),
        Operator::At => Formula::At(a as u8, b as usize),
        Operator::Variable => Formula::Variable,
        Operator::Reference => Formula::Reference(a as u8),
        Operator::Bind => Formula::Bind(a as usize),
        Operator::Some => Formula::Some(a as u8, b as usize),
    }
}
