// The calls of a monitor.
ghost use Rattle.std.specs.Prelude.{◌≡◌, ◌<◌, ◌≤◌, true, false, ◌⊎◌, [], ◌∷◌, ◌++◌, length, is_ok, Some, None, Ok, Err, MatchResult};
ghost use Rattle.refusals.specs.declared.Refusal.TheVariants.{ForeignRecord, NoSuchName};
ghost use Rattle.answers.specs.declared.types.Answer.TheVariants.{Number, Reads, Stands, Counts, Tells};
ghost use Rattle.answers.specs.declared.types.Call.TheVariants.{Append, LabelAt, StandingAt, TallyOf, NoticeOf};
ghost use Rattle.answers.specs.Answers.{as_answer};
ghost use Rattle.monitor.specs.Book.{IsClosed, NotClosed, IsRule, NoRule};
ghost use Rattle.monitor.specs.Live.{table_of, states_of, room_of, ground_of, Own, CountsOwn, Admits, IsNew, label_answer, standing_answer, tally_answer, notice_answer, append_answer, reply_of, states_after};
ghost use Rattle.monitor.specs.Whole.{RecordLabelled, AnsweredIfEnough, Agrees};

use crate::book::Book;
use crate::live::Monitor;
use crate::reading::Expectation;
use answers::types::{Answer, Call};
use expectations::reading::verdict_of;
use expectations::types::{Notice, Standing, Tally, Verdict};
use labelling::whole::label_whole;
use labels::LabelKind;
use lawful::next_unlawful;
use logic::types::{MOST_STATES, Rule, State};
use records::growing::Growing;
use records::readable::Readable;
use refusals::Refusal;
use table::finished::Table;

// Refuses a number that is not one of those from low to high.
fn within(i: usize, low: usize, high: usize, refusal: Refusal) -> Result<(), Refusal>
    ensures { MatchResult result (λ _. (low ≤ i) × (i ≤ high)) (λ why. (why ≡ refusal) × ((i < low) ⊎ (high < i))) }
{
    if (low..=high).contains(&i) {
        Ok(())
    } else {
        Err(refusal)
    }
}

impl Book {
    // Refuses a number that names no formula of the table, or a loose one.
    fn closed_formula(&self, formula: usize) -> Result<(), Refusal>
        ensures { MatchResult result (λ _. IsClosed self.now formula) (NotClosed self.now formula) }
    {
        match self.table.loose().get(formula) {
            None => Err(Refusal::NoSuchName),
            Some(true) => Err(Refusal::LooseFormula),
            Some(false) => Ok(()),
        }
    }

    // The rule with a number, if the table has one.
    fn rule(&self, r: usize) -> Result<Rule, Refusal>
        ensures { MatchResult result (IsRule self.now r) (NoRule self.now r) }
    {
        self.table
            .rules()
            .get(r)
            .copied()
            .ok_or(Refusal::NoSuchName)
    }
}

impl<R: Growing> Monitor<R> {
    // A new monitor, which takes over a table and a record.
    pub fn new(table: Table, log: R) -> Monitor<R>
        ensures { IsNew table log result }
    {
        Monitor {
            book: Book::new(table),
            log,
        }
    }

    // How many states there are, if the record's count is the monitor's.
    fn own_count(&self) -> Result<usize, Refusal>
        ensures { CountsOwn self.now result }
    {
        let n = self.log.count();
        if n == self.book.count {
            Ok(n)
        } else {
            Err(Refusal::ForeignRecord)
        }
    }

    // The label of a formula at a state, as a truncation point reads it.
    pub fn label(&self, formula: usize, state: usize, point: usize) -> Result<Verdict, Refusal>
        ensures is { result ≡ label_answer self.now formula state point }
        ensures told { as_answer Reads result ≡ reply_of self.now (LabelAt formula state point) }
    {
        let n = self.own_count()?;
        self.book.closed_formula(formula)?;
        within(state, 1, n, Refusal::NoSuchState)?;
        within(point, state, n, Refusal::NoSuchPoint)?;
        Ok(verdict_of(self.book.label(formula, state), point))
    }

    // What has become of the rule's expectation of a state, as a truncation point reads it.
    pub fn standing(&self, rule: usize, state: usize, point: usize) -> Result<Standing, Refusal>
        ensures is { result ≡ standing_answer self.now rule state point }
        ensures told { as_answer Stands result ≡ reply_of self.now (StandingAt rule state point) }
    {
        let n = self.own_count()?;
        let rule = self.book.rule(rule)?;
        within(state, 1, n, Refusal::NoSuchState)?;
        within(point, state, n, Refusal::NoSuchPoint)?;
        let expectation = Expectation {
            book: &self.book,
            rule,
            state,
        };
        Ok(expectation.standing(point))
    }

    // The tally of a rule, as the last accepted point reads it.
    pub fn tally(&self, rule: usize) -> Result<Tally, Refusal>
        ensures is { result ≡ tally_answer self.now rule }
        ensures told { as_answer Counts result ≡ reply_of self.now (TallyOf rule) }
    {
        self.own_count()?;
        self.book.rule(rule)?;
        Ok(self.book.tallies[rule])
    }

    // The notice of a truncation point with a number, counted from 0, or none.
    pub fn notice(&self, point: usize, k: usize) -> Result<Option<Notice>, Refusal>
        ensures is { result ≡ notice_answer self.now point k }
        ensures told { as_answer Tells result ≡ reply_of self.now (NoticeOf point k) }
    {
        let n = self.own_count()?;
        within(point, 1, n, Refusal::NoSuchPoint)?;
        Ok(self.book.notice(point, k))
    }

    // The refusal that fits an append first, if there is one.
    fn admit(&self, state: State) -> Result<(), Refusal>
        ensures { Admits self.now (Append state) result }
    {
        let n = self.own_count()?;
        if n >= MOST_STATES {
            return Err(Refusal::TooManyStates);
        }
        if n >= self.log.capacity() {
            return Err(Refusal::RecordFull);
        }
        next_unlawful(&self.log, state)
    }

    // What an append of a state would be answered: the number that it would get, or the refusal that fits first.
    fn number_of(&self, state: State) -> Result<usize, Refusal>
        ensures { as_answer Number result ≡ reply_of self.now (Append state) }
    {
        self.admit(state).and(Ok(self.book.count + 1))
    }

    // What a call would be answered now, without carrying it out.
    pub fn ask(&self, call: Call) -> Result<Answer, Refusal>
        ensures told { result ≡ reply_of self.now call }
        ensures foreign { (Own self.now → ⊥) → result ≡ Err ForeignRecord }
    {
        match call {
            Call::Append(state) => self.number_of(state).map(Answer::Number),
            Call::LabelAt(formula, state, point) => {
                self.label(formula, state, point).map(Answer::Reads)
            }
            Call::StandingAt(rule, state, point) => {
                self.standing(rule, state, point).map(Answer::Stands)
            }
            Call::TallyOf(rule) => self.tally(rule).map(Answer::Counts),
            Call::NoticeOf(point, k) => self.notice(point, k).map(Answer::Tells),
        }
    }

    // Appends a state and answers its number: labels the record and counts the tallies again. A refusal changes nothing.
    // That the table and the record's room stay is said in two clauses, here and of each function that changes a monitor,
    // since the monitor is lent to each.
    pub fn append(&mut self, state: State) -> Result<usize, Refusal>
        ensures is { result ≡ append_answer self.old state }
        ensures told { as_answer Number result ≡ reply_of self.old (Append state) }
        ensures taken { is_ok result ≡ true → states_of self.new ≡ states_of self.old ++ state ∷ [] }
        ensures states { states_of self.new ≡ states_after self.old (Append state) }
        ensures same { is_ok result ≡ false → self.new ≡ self.old }
        ensures table { table_of self.new ≡ table_of self.old }
        ensures room { room_of self.new ≡ room_of self.old }
        ensures ground { ground_of self.new ≡ ground_of self.old }
        ensures counted { is_ok result ≡ true → Own self.new }
        ensures own { Own self.old → Own self.new }
    {
        self.admit(state)?;
        let _ = self.log.append(state);
        self.book.follow(&self.log);
        Ok(self.book.count)
    }

    // Labels the whole record in any kind of label, into memory that is handed in, and answers the number of states. The
    // labels are those that the monitor itself answers with.
    pub fn label_record<K: LabelKind + Copy>(
        &self,
        labels: &mut [K],
        work: &mut [K],
    ) -> Result<usize, Refusal>
        ensures foreign { (Own self.now → ⊥) → result ≡ Err ForeignRecord }
        ensures whole { RecordLabelled K.reads K.reach self.now labels.old work.old result labels.new work.new }
        ensures enough { AnsweredIfEnough K.reach self.now labels.old work.old result }
        ensures agrees { is_ok result ≡ true → Agrees K.reads (ground_of self.now) (states_of self.now) labels.new }
    {
        // Named, so that an edit can turn this test alone.
        let _own = self.own_count()?;
        label_whole(&self.book.table, &self.log, labels, work)
    }
}

// A monitor is a readable record itself: it means the states of the record that it has taken over.
impl<R: Growing> Readable for Monitor<R> {
    ghost states = { λ m. R.Readable.states m.log };

    fn count(&self) -> usize {
        self.log.count()
    }

    fn state(&self, i: usize) -> State {
        self.log.state(i)
    }
}
