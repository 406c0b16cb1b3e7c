// The laws of a monitor's answers. Each function is there for its contract.
ghost use Rattle.std.specs.Prelude.{◌≤◌, List, length};
ghost use Rattle.logic.specs.declared.types.State.{State};
ghost use Rattle.logic.specs.Lawful.{LawfulRecord};
ghost use Rattle.answers.specs.Answers.{Ground};
ghost use Rattle.answers.specs.Law.{Founded, Judged};
ghost use Rattle.answers.specs.Lasting.{Lasts};
ghost use Rattle.answers.specs.Refused.{QueriesRefused};

// Answers over lawful states, from labels that obey their laws, obey the law of a monitor.
pub fn answers_are_judged()
    ensures { (G : Ground) → Founded G → (xs : List State) → LawfulRecord xs → length xs ≤ 256 → Judged G xs }
{}

// What was answered stays so, whatever calls follow.
pub fn answers_last()
    ensures { (G : Ground) → Founded G → (xs : List State) → LawfulRecord xs → length xs ≤ 256 → Lasts G xs }
{}

// A query is refused with the first number that fits, and with none if none fits.
pub fn queries_are_refused()
    ensures { (G : Ground) (xs : List State) → QueriesRefused G xs }
{}
