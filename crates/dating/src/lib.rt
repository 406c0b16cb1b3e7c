// Dated labels: one number for both readings of a formula at every truncation point. Each function is there for its
// contract, which says a law of the labels.
#![tactic(auto)]

ghost use Rattle.dating.specs.Laws.{LabelsRead, LabelsHaveDates};

// A formula's label gives both readings at every truncation point from 1 to 256.
pub(crate) fn labels_read()
    ensures { LabelsRead }
{}

// A label of state i is unknown, or dated from i to the last state.
pub(crate) fn labels_have_dates()
    ensures { LabelsHaveDates }
{}
