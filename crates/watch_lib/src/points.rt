// The notices of a truncation point.
ghost use Rattle.std.specs.Prelude.{◌≡◌, ◌<◌, ◌≤◌, length, OnOk};
ghost use Rattle.std.specs.List.{flat_map};
ghost use Rattle.std.specs.Option.{option_to_list};
ghost use Rattle.monitor.specs.Live.{states_of, table_rules, standing_at, state_notices, rule_notices, point_notices};
ghost use Rattle.watch_lib.specs.Watched.{Adds, AddsOfState};

use crate::lines::Line;
use crate::watcher::Watcher;
use expectations::types::{Event, Notice, Standing};
use records::growing::Growing;
use records::readable::Readable;
use std::alloc::AllocError;

impl<R: Growing> Watcher<R> {
    // What has become of the expectation that a rule has of a state, as a point that was accepted reads it.
    fn standing_of(&self, rule: usize, state: usize, point: usize) -> Standing
        requires rule { rule < length (table_rules self.now.monitor) }
        requires from { 1 ≤ state }
        requires by { state ≤ point }
        requires to { point ≤ length (states_of self.now.monitor) }
        ensures { result ≡ standing_at self.now.monitor rule state point }
    {
        // Never refused: the rule is there, and the point was accepted.
        self.monitor
            .standing(rule, state, point)
            .unwrap_or(Standing::NotRaised)
    }

    // The notices that a point has on this expectation: its raising, then its decision.
    fn notices_of(&self, rule: usize, state: usize, point: usize) -> [Option<Notice>; 2]
        requires rule { rule < length (table_rules self.now.monitor) }
        requires from { 1 ≤ state }
        requires by { state ≤ point }
        requires to { point ≤ length (states_of self.now.monitor) }
        ensures { flat_map option_to_list result ≡ state_notices self.now.monitor point rule state }
    {
        let told = |is_so: bool, event: Event| {
            is_so.then_some(Notice {
                rule,
                from: state,
                event,
            })
        };
        let raising = told(state == point, Event::Raising);
        match self.standing_of(rule, state, point) {
            Standing::NotRaised => [None; 2],
            Standing::Pending => [raising, None],
            Standing::Fulfilled(date) => [raising, told(date == point, Event::Fulfilling)],
            Standing::Violated(date) => [raising, told(date == point, Event::Violating)],
        }
    }

    // Adds a line for each notice that a point has on this expectation.
    fn tell_expectation(
        &self,
        rule: usize,
        state: usize,
        point: usize,
        lines: &mut Vec<Line>,
    ) -> Result<(), AllocError>
        requires rule { rule < length (table_rules self.now.monitor) }
        requires from { 1 ≤ state }
        requires by { state ≤ point }
        requires to { point ≤ length (states_of self.now.monitor) }
        ensures { OnOk result (AddsOfState self.now.monitor point rule state lines.old.items lines.new.items) }
    {
        // Not by `flatten`: an invariant would have to say what its source and its inner iterators have left.
        for told in self.notices_of(rule, state, point) {
            if let Some(notice) = told {
                lines.push(Line::Told { point, notice })?;
            }
        }
        Ok(())
    }

    // Adds a line for each notice that a point has on a rule's expectations, in the order of their states.
    #[tactic(auto, using(crate::proofs::Telling::state_more, std::proofs::lemmas::Grind::common_steps))]
    fn tell_rule(&self, rule: usize, point: usize, lines: &mut Vec<Line>) -> Result<(), AllocError>
        requires rule { rule < length (table_rules self.now.monitor) }
        requires from { 1 ≤ point }
        requires to { point ≤ length (states_of self.now.monitor) }
        ensures { OnOk result (Adds point (rule_notices self.now.monitor point rule) lines.old.items lines.new.items) }
    {
        // Not `1..=`, after which it is not known where an empty loop ends.
        for state in 1..point + 1 {
            self.tell_expectation(rule, state, point, lines)?;
        }
        Ok(())
    }

    // Adds a line for each notice of a point that was accepted, in one pass through the rules and the states up to it.
    #[tactic(auto, using(crate::proofs::Telling::rule_more, std::proofs::lemmas::Grind::common_steps))]
    pub(crate) fn tell_point(&self, point: usize, lines: &mut Vec<Line>) -> Result<(), AllocError>
        requires from { 1 ≤ point }
        requires to { point ≤ length (states_of self.now.monitor) }
        ensures { OnOk result (Adds point (point_notices self.now.monitor point) lines.old.items lines.new.items) }
    {
        // By number: a monitor is asked for the standings of rule k.
        for rule in 0..self.rules {
            self.tell_rule(rule, point, lines)?;
        }
        Ok(())
    }
}
