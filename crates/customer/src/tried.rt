// A small log, and what the law of a monitor says of it.
ghost use Rattle.std.specs.Prelude.{◌≡◌, Ok};
ghost use Rattle.customer.specs.Tried.{tried_calls, tried_answers, held_answers, PromisedSo, KeptSo};

use crate::halves::HalvesRecord;
use crate::slot::{CONTENT, FREED, RULE, TAKEN, slot_table};
use answers::types::{Answer, Call};
use logic::types::State;
use monitor::live::Monitor;
use records::growing::Growing;
use refusals::Refusal;
use runs::run::call_all;
use table::defects::Defect;

const NAMED: State = State {
    nominal: 7,
    ..TAKEN
};

const CALLS: usize = 14;

// Two states with nominal 7, the second of which is refused; and what is asked before and after the last state.
fn calls() -> [Call; CALLS]
    ensures { result ≡ tried_calls }
{
    [
        Call::Append(TAKEN),
        Call::Append(FREED),
        Call::Append(NAMED),
        Call::Append(TAKEN),
        Call::StandingAt(RULE, 3, 4),
        Call::LabelAt(CONTENT, 1, 2),
        Call::NoticeOf(4, 0),
        Call::TallyOf(RULE),
        Call::Append(NAMED),
        Call::Append(FREED),
        Call::StandingAt(RULE, 3, 5),
        Call::LabelAt(CONTENT, 1, 5),
        Call::NoticeOf(4, 0),
        Call::TallyOf(RULE),
    ]
}

// The answers to these calls on a new monitor, and what its law says of the log.
pub fn tried() -> Result<[Result<Answer, Refusal>; CALLS], Defect>
    ensures told { result ≡ Ok tried_answers }
    ensures law { PromisedSo }
    ensures kept { KeptSo tried_answers }
{
    let table = slot_table()?;
    Monitor::new(table, HalvesRecord::new()).judge();
    let mut answers = [Err(Refusal::ForeignRecord); CALLS];
    let _ = call_all(table, HalvesRecord::new(), &calls(), &mut answers);
    Ok(answers)
}

// The answers to three calls over a record that starts with a state.
pub fn held() -> Result<[Result<Answer, Refusal>; 3], Defect>
    ensures { result ≡ Ok held_answers }
{
    let table = slot_table()?;
    let mut log = HalvesRecord::new();
    let _ = log.append(TAKEN);
    let calls = [
        Call::Append(FREED),
        Call::TallyOf(RULE),
        Call::StandingAt(RULE, 1, 1),
    ];
    let mut answers = [Ok(Answer::Tells(None)); 3];
    let _ = call_all(table, log, &calls, &mut answers);
    Ok(answers)
}
