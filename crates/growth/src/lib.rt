// The labels of a table's formulas as a function of the states: what they mean, and how they grow with the record.
#![tactic(auto)]

ghost use Rattle.std.specs.Prelude.{◌≡◌};
ghost use Rattle.growth.specs.Growth.{label_of_number};
ghost use Rattle.growth.specs.Laws.{LabelsMean, LabelsAreSound, LabelsGrow, LabelsInOrder, CellsAreLabels, KindsAgree};

use expectations::types::Label;
use labels::LabelKind;
use labels::dated::Dated;

// The label that a dated number stands for. Not `From`: both types are of other crates, and neither of them knows the other. The
// casts keep their numbers, and a conversion would add a failure that never comes.
pub fn label_told(x: Dated) -> Label
    ensures { result ≡ label_of_number x.value }
{
    match x.value() {
        0 => Label::Unknown,
        value @ 1.. => Label::TrueFrom((257 - value) as usize),
        value => Label::FalseFrom((257 + value) as usize),
    }
}

// Each function below is there for its contract, which says a law of the labels.

// Every label has the right verdict at every truncation point.
pub fn labels_mean()
    ensures { LabelsMean }
{}

// Every decided label is right on every lawful endless trace that begins with the record.
pub fn labels_are_sound()
    ensures { LabelsAreSound }
{}

// With one more state a decided label stays, and any other is unknown or decided from the new state on.
pub fn labels_grow()
    ensures { LabelsGrow }
{}

// No label is dated before its state or after the last one.
pub fn labels_in_order()
    ensures { LabelsInOrder }
{}

// A dated label that means a formula is the formula's label.
pub fn cells_are_labels()
    ensures { CellsAreLabels }
{}

// Labels of every kind agree.
pub fn kinds_agree<K: LabelKind>()
    ensures { KindsAgree K.reads K.reach }
{}
