// What a test asks of a reader. Refusals by number and place, since these are what is written and what the tests hold.
use faults::fault::Fault;
use faults::layer::Layer;
use rulestexts::texts::read_rules_text;
use std::process::Abort;
use traces::states::read_state;

// The trace line is taken after a count of states, and took `used` bytes.
pub(crate) fn taken(rt: &impl Abort, text: &[u8], count: usize, used: usize) {
    assert_eq!(rt; read_state(text, count).map(|line| line.used), Ok(used));
}

// Each trace line is refused with a number, at line 1.
pub(crate) fn all_refused(rt: &impl Abort, texts: &[&[u8]], count: usize, number: u8) {
    for text in texts {
        let refusal = read_state(text, count)
            .err()
            .map(|fault| (fault.number(), fault.place()));
        assert_eq!(rt; refusal, Some((number, 1)));
    }
}

// Each rules text is refused by a layer, with a number at a line.
pub(crate) fn all_stopped(rt: &impl Abort, texts: &[&[u8]], layer: Layer, number: u8, line: usize) {
    for text in texts {
        stopped(rt, text, layer, number, line);
    }
}

// The rules text is refused by a layer, with a number at a line.
pub(crate) fn stopped(rt: &impl Abort, text: &[u8], layer: Layer, number: u8, line: usize) {
    let refusal = read_rules_text(text)
        .err()
        .map(|fault| (fault.number(), fault.place(), fault.layer()));
    assert_eq!(rt; refusal, Some((number, line, layer)));
}
