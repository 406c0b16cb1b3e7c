// Made-up states, and what a test asks of a record that holds some of them.
use logic::types::{Reference, State};
use records::growing::Growing;
use records::readable::{BLANK, Readable};
use std::process::Abort;

// The state that the tests append as number i + 1.
pub(crate) fn sample(i: u8) -> State {
    State {
        signals: u32::from_le_bytes([i ^ 0x55, i, 255 - i, i / 2]),
        nominal: i,
        first: Reference {
            kind: i % 16,
            target: u16::from(i),
        },
        second: Reference {
            kind: 15 - i % 16,
            target: 256 - u16::from(i),
        },
    }
}

// Appends the first samples to an empty record: it accepts as many as its capacity, and refuses the others.
pub(crate) fn fills<R: Growing>(rt: &impl Abort, record: &mut R, times: u8) {
    let capacity = record.capacity();
    assert_eq!(rt; record.count(), 0);
    for i in 0..times {
        let accepted = record.append(sample(i)).is_ok();
        assert_eq!(rt; accepted, usize::from(i) < capacity);
        assert_eq!(rt; record.capacity(), capacity);
    }
}

// The record holds the first n samples and nothing else.
pub(crate) fn holds<R: Readable>(rt: &impl Abort, record: &R, n: u8) {
    assert_eq!(rt; record.count(), usize::from(n));
    assert_eq!(rt; record.state(0), BLANK);
    for i in 0..n {
        assert_eq!(rt; record.state(usize::from(i) + 1), sample(i));
    }
    assert_eq!(rt; record.state(usize::from(n) + 1), BLANK);
    assert_eq!(rt; record.state(usize::MAX), BLANK);
}
