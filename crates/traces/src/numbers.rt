ghost use Rattle.fields.specs.Readers.{ReadsForm};
ghost use Rattle.traces.specs.Traces.{trace_kind};

use fields::values::Fields;
use keys::TraceKey;

// The numbers of a trace line, as they stand.
#[derive(Drop, Clone, Copy, PartialEq, Eq, Debug)]
pub struct Numbers {
    pub state: u64,
    pub signals: u64,
    pub nominal: u64,
    pub first_kind: u64,
    pub first_target: u64,
    pub second_kind: u64,
    pub second_target: u64,
}

// The numbers that a trace line shows. `trace_kind 0` stands for the kind after any count of states: the form of a line does
// not depend on the count.
pub(crate) fn numbers_of(line: &[u8]) -> Option<Numbers>
    ensures { ReadsForm (trace_kind 0) (λ v. v) line.now result }
{
    let mut fields = Fields::of(line);
    let state = fields.number(TraceKey::State)?;
    let signals = fields.number(TraceKey::Signals)?;
    let nominal = fields.number(TraceKey::Mark)?;
    let first_kind = fields.number(TraceKey::FirstKind)?;
    let first_target = fields.number(TraceKey::FirstTarget)?;
    let second_kind = fields.number(TraceKey::SecondKind)?;
    let second_target = fields.number(TraceKey::SecondTarget)?;
    fields.is_at_end().then_some(Numbers {
        state,
        signals,
        nominal,
        first_kind,
        first_target,
        second_kind,
        second_target,
    })
}
