// Whether the two kinds of label tell the same of a log.
ghost use Rattle.std.specs.Prelude.{◌≡◌, ◌≤◌, Decides, true, length};
ghost use Rattle.labels.specs.Readings.{Same};
ghost use Rattle.labelling.specs.Whole.{Leaves};
ghost use Rattle.kinds_agree.specs.Sames.{BothTell, SameAt, AllSame, Labellable, KindsAgreed};

use labelling::whole::label_whole;
use labels::LabelKind;
use labels::dated::Dated;
use logic::types::State;
use records::rows::Rows;
use strips::Strip;
use table::finished::Table;

// The last truncation point that both kinds tell of.
const POINTS: usize = 64;

// The cells for labels, and as many to work in: 22 formulas at 3 states take 66, and the others stay unknown.
const CELLS: usize = 96;

// Whether two labels have the same readings at a point.
fn same_at<A: LabelKind + Copy, B: LabelKind + Copy>(a: A, b: B, point: usize) -> bool
    ensures told { BothTell A.reach B.reach point → result ≡ true → SameAt A.reads B.reads point a b }
    ensures found { BothTell A.reach B.reach point → SameAt A.reads B.reads point a b → result ≡ true }
{
    let weak = a.read(true, point) == b.read(true, point);
    let strong = a.read(false, point) == b.read(false, point);
    weak && strong
}

// Whether two labels have the same readings at every point up to 64, where both kinds tell of these points.
fn same_readings<A: LabelKind + Copy, B: LabelKind + Copy>(a: A, b: B) -> bool
    ensures told { 64 ≤ A.reach → 64 ≤ B.reach → result ≡ true → Same 64 (A.reads a) (B.reads b) }
    ensures found { 64 ≤ A.reach → 64 ≤ B.reach → Same 64 (A.reads a) (B.reads b) → result ≡ true }
{
    (1..=POINTS).all(|point| same_at(a, b, point))
}

// Whether the labels of two lists have the same readings, one by one.
fn same_labels<A: LabelKind + Copy, B: LabelKind + Copy>(first: &[A], second: &[B]) -> bool
    ensures lengths { result ≡ true → length first.now ≡ length second.now }
    ensures told { 64 ≤ A.reach → 64 ≤ B.reach → result ≡ true → AllSame A.reads B.reads first.now second.now }
    ensures found { 64 ≤ A.reach → 64 ≤ B.reach → AllSame A.reads B.reads first.now second.now → result ≡ true }
{
    first.len() == second.len() && first.iter().zip(second).all(|(a, b)| same_readings(*a, *b))
}

// Labels the log in one kind, and tells whether that is not declined.
fn is_labelled<K: LabelKind + Copy>(
    table: &Table,
    log: &[State],
    labels: &mut [K],
    work: &mut [K],
) -> bool
    ensures told { result ≡ true → Leaves K.reads K.reach table.now log.now labels.old work.old labels.new work.new }
    ensures found { Labellable K.reach (length labels.old) (length work.old) table.now log.now → result ≡ true }
{
    label_whole(table, &Rows::new(log), labels, work).is_ok()
}

// Labels the log in both kinds. Cells without a label are unknown in both. Wherever there are labels they tell the same, so the
// answer is whether the log can be labelled. Arrays, and no `Vec`: an allocation could fail, and this answers without failure.
pub fn kinds_agree(table: &Table, log: &[State]) -> bool
    ensures told { result ≡ true → KindsAgreed table.now log.now }
    ensures exact { Decides result (Labellable 64 96 96 table.now log.now) }
{
    let mut dated = [Dated::unknown(); CELLS];
    let mut dated_work = [Dated::unknown(); CELLS];
    let mut strips = [Strip::unknown(); CELLS];
    let mut strip_work = [Strip::unknown(); CELLS];
    let in_dates = is_labelled(table, log, &mut dated, &mut dated_work);
    let in_strips = is_labelled(table, log, &mut strips, &mut strip_work);
    in_dates && in_strips && same_labels(&dated, &strips)
}
