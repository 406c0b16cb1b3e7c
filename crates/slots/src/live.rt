// The double free on a live monitor, and what is promised of it.
ghost use Rattle.std.specs.Prelude.{◌≡◌, Ok, false};
ghost use Rattle.expectations.specs.declared.types.Standing.TheVariants.{Violated};
ghost use Rattle.slots.specs.Instances.{Instances};

use crate::log::double_free;
use crate::rule::{CONTENT, RULE, slot_table};
use answers::types::{Answer, Call};
use expectations::types::Standing;
use labels::LabelKind;
use labels::dated::Dated;
use records::change_record::ChangeRecord;
use refusals::Refusal;
use runs::run::{call_all, run};
use table::defects::Defect;

// A list of calls brings the first three states. The monitor that it leaves goes on with the other three, and tells what has
// become of the slot of state 3.
pub fn live_standing() -> Result<Result<Standing, Refusal>, Defect>
    ensures told { result ≡ Ok (Ok (Violated 4)) }
    ensures promised { Instances }
{
    let [a, b, c, d, e, f] = double_free();
    let calls = [Call::Append(a), Call::Append(b), Call::Append(c)];
    let mut answers = [Ok(Answer::Tells(None)); 3];
    let called = call_all(slot_table()?, ChangeRecord::new(), &calls, &mut answers);
    let mut monitor = called.monitor;
    for state in [d, e, f] {
        let _ = monitor.append(state);
    }
    monitor.judge();
    Ok(monitor.standing(RULE, 3, 6))
}

// The labels of the table's five formulas at the six states of the log.
const CELLS: usize = 30;

// The log labelled whole: how many states, and whether the label of the content at state 3 holds strongly at point 4.
pub fn labelled_whole() -> Result<(Result<usize, Refusal>, bool), Defect>
    ensures { result ≡ Ok (Ok 6, false) }
{
    let [a, b, c, d, e, f] = double_free();
    let calls = [
        Call::Append(a),
        Call::Append(b),
        Call::Append(c),
        Call::Append(d),
        Call::Append(e),
        Call::Append(f),
    ];
    let mut answers = [Ok(Answer::Tells(None)); 6];
    let mut labels = [Dated::unknown(); CELLS];
    let mut work = [Dated::unknown(); CELLS];
    let outcome = run(
        slot_table()?,
        ChangeRecord::new(),
        &calls,
        &mut answers,
        &mut labels,
        &mut work,
    );
    let label = labels[CONTENT * 6 + 2];
    Ok((outcome.labelled, label.read(false, 4)))
}
