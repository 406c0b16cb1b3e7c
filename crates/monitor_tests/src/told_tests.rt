// What each refusal of the monitor's layer tells.
use faults::fault::Fault;
use faults::layer::Layer;
use refusals::Refusal;

#[test]
fn refusals_told(rt: HostRuntime) {
    for (refusal, number, place) in [
        (Refusal::ForeignRecord, 6, 0),
        (Refusal::TooManyStates, 7, 0),
        (Refusal::RecordFull, 8, 0),
        (Refusal::MemoryTooShort, 9, 0),
        (Refusal::NominalTaken(256), 10, 256),
        (Refusal::ReferenceUnfit(2), 11, 2),
        (Refusal::NoSuchName, 12, 0),
        (Refusal::LooseFormula, 13, 0),
        (Refusal::NoSuchState, 14, 0),
        (Refusal::NoSuchPoint, 15, 0),
    ] {
        assert_eq!(rt; refusal.layer(), Layer::Monitor);
        assert_eq!(rt; (refusal.number(), refusal.place()), (number, place));
    }
}
