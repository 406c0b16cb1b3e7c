// What a monitor's memory tells, and how the tallies are counted again.
ghost use Rattle.std.specs.Prelude.{◌≡◌, ℕ, ◌+◌, ◌-◌, ◌*◌, ◌^◌, ◌<◌, ◌≤◌, List, [], ◌∷◌, ◌++◌, length, ◌≢◌, slice_index_or};
ghost use Rattle.std.specs.List.{slice_get, flat_map};
ghost use Rattle.std.specs.Option.{option_to_list};
ghost use Rattle.logic.specs.Tables.{no_rule};
ghost use Rattle.expectations.specs.Expectations.{no_tally, raises, standing as standing_of, added, of_state, notices};
ghost use Rattle.monitor.specs.Book.{held, rules_in, standing_in, tally_in, Countable, OtherTallies, SameButTallies, TalliesRight};

use crate::book::Book;
use expectations::reading::{is_false_from, is_true_from, judge};
use expectations::types::{Event, Label, Notice, Standing, Tally};
use growth::label_told;
use logic::types::Rule;

// Counts one more standing. A tally counts at most 256; any bound below the last `usize` serves, so that no count wraps.
fn count_one(t: &mut Tally, standing: Standing)
    requires { Countable t.old }
    ensures { t.new ≡ added standing t.old }
{
    match standing {
        Standing::NotRaised => {}
        Standing::Pending => {
            t.raised += 1;
            t.pending += 1;
        }
        Standing::Fulfilled(_) => {
            t.raised += 1;
            t.fulfilled += 1;
        }
        Standing::Violated(_) => {
            t.raised += 1;
            t.violated += 1;
        }
    }
}

// What a rule expects of a state, by the labels of a book. The numbers are small enough that a cell is found by them.
#[derive(Drop)]
pub(crate) struct Expectation<'a> {
    pub(crate) book: &'a Book,
    pub(crate) rule: Rule,
    pub(crate) state: usize,
    ghost named: { (rule.condition < 2 ^ 16) × (rule.content < 2 ^ 16) },
    ghost numbered: { (1 ≤ state) × (state < 2 ^ 16) },
}

impl Expectation<'_> {
    // Whether the condition is true at the state, from there on.
    fn is_raised(&self) -> bool
        ensures { result ≡ raises (held self.now.book.now) self.now.rule self.now.state }
    {
        is_true_from(self.book.label(self.rule.condition, self.state), self.state)
    }

    // The label of what is expected.
    fn content(&self) -> Label
        ensures { result ≡ held self.now.book.now self.now.rule.content self.now.state }
    {
        self.book.label(self.rule.content, self.state)
    }

    // What has become of it, as a truncation point reads it.
    pub(crate) fn standing(&self, point: usize) -> Standing
        ensures { result ≡ standing_of (held self.now.book.now) self.now.rule self.now.state point }
    {
        if self.is_raised() {
            judge(self.content(), point)
        } else {
            Standing::NotRaised
        }
    }

    // The notices that a point has on it, by the number of its rule: a raising, a fulfilment, a violation.
    fn events(&self, r: usize, point: usize) -> [Option<Notice>; 3]
        ensures { flat_map option_to_list result ≡
            of_state (held self.now.book.now) point r self.now.rule self.now.state }
    {
        if !self.is_raised() {
            return [None; 3];
        }
        let content = self.content();
        let told = |is_so: bool, event: Event| {
            is_so.then_some(Notice {
                rule: r,
                from: self.state,
                event,
            })
        };
        [
            told(self.state == point, Event::Raising),
            told(is_true_from(content, point), Event::Fulfilling),
            told(is_false_from(content, point), Event::Violating),
        ]
    }
}

impl Book {
    // The label of formula f at state i. A formula's number is below 64 and a state's at most 256; any such bounds serve, so
    // that the number of the cell does not wrap.
    pub(crate) fn label(&self, f: usize, i: usize) -> Label
        requires { (f < 2 ^ 16) × ((1 ≤ i) × (i < 2 ^ 16)) }
        ensures { result ≡ held self.now f i }
    {
        self.cells
            .get(f * self.count + (i - 1))
            .map_or(Label::Unknown, |cell| label_told(*cell))
    }

    // What has become of rule r's expectation of a state, as the last point reads it.
    fn last_standing(&self, r: usize, state: usize) -> Standing
        requires rule { r < length (rules_in self.now) }
        requires state { (1 ≤ state) × (state < 2 ^ 16) }
        ensures { result ≡ standing_in self.now r state }
    {
        let expectation = Expectation {
            book: self,
            rule: self.table.rules()[r],
            state,
        };
        expectation.standing(self.count)
    }

    // Counts a rule's expectations again, in its own place: one element of the array of tallies is lent and changed.
    fn recount_rule(&mut self, r: usize)
        requires { r < length (rules_in self.old) }
        ensures same { SameButTallies self.old self.new }
        ensures right { slice_index_or self.new.tallies r no_tally ≡ tally_in self.new r }
        ensures others { OtherTallies r self.old self.new }
    {
        self.tallies[r] = Tally::default();
        // Not `1..=`, after which it is not known where an empty loop ends.
        for state in 1..self.count + 1 {
            let standing = self.last_standing(r, state);
            count_one(&mut self.tallies[r], standing);
        }
    }

    // Counts every rule's expectations again.
    pub(crate) fn recount(&mut self)
        ensures same { SameButTallies self.old self.new }
        ensures right { TalliesRight self.new (length (rules_in self.new)) }
    {
        // By number: a rule is told apart by it, and the table is not lent while a tally changes.
        for r in 0..self.table.rules().len() {
            self.recount_rule(r);
        }
    }

    // The k-th notice of a point: by rule, then by raising state, a raising before its own decision. A point is at most 256;
    // any bound below that of `label` serves.
    pub(crate) fn notice(&self, point: usize, k: usize) -> Option<Notice>
        requires { point < 2 ^ 15 }
        ensures { result ≡ slice_get (notices (held self.now) (rules_in self.now) point) k }
    {
        let mut more = k;
        let mut told = None;
        'found: for (r, rule) in self.table.rules().iter().enumerate() {
            // Not `1..=`, as in `recount_rule`.
            for state in 1..point + 1 {
                let expectation = Expectation {
                    book: self,
                    rule: *rule,
                    state,
                };
                // Not by `flatten`: an invariant would have to say what its source and its inner iterators have left.
                for event in expectation.events(r, point) {
                    if let Some(notice) = event {
                        if more == 0 {
                            told = Some(notice);
                            break 'found;
                        }
                        more -= 1;
                    }
                }
            }
        }
        told
    }
}
