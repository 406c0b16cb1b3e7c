// The double free through the law of a list of calls: what is answered, and what that says of every log that goes on from it.
ghost use Rattle.std.specs.Prelude.{◌≡◌, Ok, replicate};
ghost use Rattle.answers.specs.Law.{foreign};
ghost use Rattle.slots.specs.ForGood.{slot_calls, slot_answers, ForGood, NoneTakenBack};

use crate::log::double_free;
use crate::rule::{CONTENT, RULE, slot_table};
use answers::types::{Answer, Call};
use records::change_record::ChangeRecord;
use records::growing::Growing;
use refusals::Refusal;
use runs::run::call_all;
use table::defects::Defect;

const CALLS: usize = 17;

// The answers to the calls, one for each.
pub type Answers = [Result<Answer, Refusal>; CALLS];

// The first four states of the log, and what is asked of the slot of state 3; the other two, and what is then asked.
fn calls() -> [Call; CALLS]
    ensures { result ≡ slot_calls }
{
    let [a, b, c, d, e, f] = double_free();
    [
        Call::Append(a),
        Call::Append(b),
        Call::Append(c),
        Call::Append(d),
        Call::LabelAt(CONTENT, 3, 4),
        Call::NoticeOf(4, 0),
        Call::StandingAt(RULE, 3, 4),
        Call::Append(e),
        Call::StandingAt(RULE, 3, 5),
        Call::Append(f),
        Call::LabelAt(CONTENT, 1, 2),
        Call::LabelAt(CONTENT, 3, 6),
        Call::TallyOf(RULE),
        Call::NoticeOf(4, 0),
        Call::NoticeOf(4, 1),
        Call::NoticeOf(4, 2),
        Call::StandingAt(RULE, 3, 6),
    ]
}

// The answers to these calls on a new monitor. By them the slot of state 3 is violated for good: on no lawful trace that
// begins with the log is it freed in time. Arrays, and no `Vec`: an allocation could fail, and this always answers `Ok`.
pub fn violated_for_good() -> Result<Answers, Defect>
    ensures told { result ≡ Ok slot_answers }
    ensures lasts { ForGood }
    ensures none_taken_back { NoneTakenBack }
{
    let mut answers = [Ok(Answer::Tells(None)); CALLS];
    let _ = call_all(slot_table()?, ChangeRecord::new(), &calls(), &mut answers);
    Ok(answers)
}

// The answers to the same calls over a record that holds a state beforehand: each is refused.
pub fn refused_over_another() -> Result<Answers, Defect>
    ensures { result ≡ Ok (replicate 17 foreign) }
{
    let [first, ..] = double_free();
    let mut held = ChangeRecord::new();
    let _ = held.append(first);
    let mut answers = [Ok(Answer::Tells(None)); CALLS];
    let _ = call_all(slot_table()?, held, &calls(), &mut answers);
    Ok(answers)
}
