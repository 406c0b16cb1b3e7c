ghost use Rattle.traces.specs.Meanings.{OneReading};

// A text is read in one way only.
pub(crate) fn one_reading()
    ensures { OneReading }
{}
