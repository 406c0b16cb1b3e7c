ghost use Rattle.fields.specs.Readers.{ReadsForm, GivenIf, ReadsValue};
ghost use Rattle.rulelines.specs.Rules.{Ranged, rule_kind, rule_meant, shown_by};

use faults::line::LineFault;
use fields::lines::{Taken, read_line};
use fields::numbers::NUMBER_LIMIT;
use fields::values::Fields;
use keys::RuleKey;
use logic::types::Rule;

// The numbers of a rule line, as they stand.
#[derive(Drop, Clone, Copy)]
struct Numbers {
    number: u64,
    condition: u64,
    content: u64,
}

// The numbers that a rule line shows. `rule_kind 0` stands for the kind of any number: the form of a line does not depend on
// the number that is due.
fn numbers_of(line: &[u8]) -> Option<Numbers>
    ensures { ReadsForm (rule_kind 0) shown_by line.now result }
{
    let mut fields = Fields::of(line);
    let number = fields.number(RuleKey::Number)?;
    let condition = fields.number(RuleKey::When)?;
    let content = fields.number(RuleKey::Expect)?;
    fields.is_at_end().then_some(Numbers {
        number,
        condition,
        content,
    })
}

// The rule that the numbers of a line give as number k, if they are in their ranges.
fn rule_of(v: Numbers, k: usize) -> Option<Rule>
    ensures { GivenIf (Ranged k v.number (rule_meant v)) (rule_meant v) result }
{
    // A cast, since no `From` leads from `usize` to `u64`.
    if v.number != k as u64 || v.condition > NUMBER_LIMIT || v.content > NUMBER_LIMIT {
        return None;
    }
    Some(Rule {
        condition: usize::try_from(v.condition).ok()?,
        content: usize::try_from(v.content).ok()?,
    })
}

// The rule that the first line of a text shows as number k; `place` is the line's, for a refusal.
pub fn read_rule(text: &[u8], place: usize, k: usize) -> Result<Taken<Rule>, LineFault>
    ensures { ReadsValue (rule_kind k) (λ r. (k, r)) text.now place result }
{
    read_line(text, place, numbers_of, |numbers| rule_of(numbers, k))
}
