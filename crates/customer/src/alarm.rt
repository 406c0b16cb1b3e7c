// A monitor of one rule with an alarm, which never goes off again.
ghost use Rattle.std.specs.Prelude.{◌≡◌, ◌<◌, true, false, length, is_ok, nat_lt, IfOk, IfErr};
ghost use Rattle.answers.specs.declared.types.Call.TheVariants.{Append};
ghost use Rattle.monitor.specs.Live.{table_of, states_of, room_of, ground_of, Own, IsNew, append_answer, tally_at, states_after};
ghost use Rattle.customer.specs.Alarms.{Unwatched};

use logic::types::State;
use monitor::live::Monitor;
use records::growing::Growing;
use records::readable::Readable;
use refusals::Refusal;
use table::finished::Table;

// The alarm is on exactly if an expectation of the rule is violated.
#[derive(Drop)]
pub struct Alarm<R: Growing> {
    monitor: Monitor<R>,
    rule: usize,
    on: bool,
    ghost own: { Own monitor },
    ghost named: { rule < length (ground_of monitor).rules },
    ghost rings: { on ≡ nat_lt 0 (tally_at monitor rule).violated },
}

impl<R: Growing + Drop> Alarm<R> {
    // An alarm for a rule of the table, over an empty record.
    pub fn new(table: Table, log: R, rule: usize) -> Result<Alarm<R>, Refusal>
        ensures new { IfOk result (λ a. IsNew table log a.monitor × (a.rule ≡ rule) × (a.on ≡ false)) }
        ensures refused { IfErr result (λ why. Unwatched table (length (R.Readable.states log)) rule why) }
    {
        if log.count() > 0 {
            return Err(Refusal::ForeignRecord);
        }
        if rule >= table.rules().len() {
            return Err(Refusal::NoSuchName);
        }
        Ok(Alarm {
            monitor: Monitor::new(table, log),
            rule,
            on: false,
        })
    }
}

impl<R: Growing> Alarm<R> {
    // Takes one more state, or refuses it and changes nothing. An alarm that is on stays on.
    pub fn take(&mut self, state: State) -> Result<usize, Refusal>
        ensures is { result ≡ append_answer self.old.monitor state }
        ensures states { states_of self.new.monitor ≡ states_after self.old.monitor (Append state) }
        ensures same { is_ok result ≡ false → (self.new.monitor ≡ self.old.monitor) × (self.new.on ≡ self.old.on) }
        ensures lasting { self.old.on ≡ true → self.new.on ≡ true }
        ensures rule { self.new.rule ≡ self.old.rule }
        ensures table { table_of self.new.monitor ≡ table_of self.old.monitor }
        ensures room { room_of self.new.monitor ≡ room_of self.old.monitor }
    {
        self.monitor.judge();
        let n = self.monitor.append(state)?;
        let violated = self
            .monitor
            .tally(self.rule)
            .map_or(0, |tally| tally.violated);
        self.on = 0 < violated;
        Ok(n)
    }

    pub fn is_on(&self) -> bool
        ensures { result ≡ nat_lt 0 (tally_at self.now.monitor self.now.rule).violated }
    {
        self.on
    }
}
