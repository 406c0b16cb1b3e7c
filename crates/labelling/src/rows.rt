// The labels of one formula at all states, from those of its parts. A row has one cell for each state. The rows are lent to
// each call, so that their one length stands in the clauses.
ghost use Rattle.std.specs.Prelude.{◌≡◌, ℕ, ◌+◌, ◌*◌, ◌^◌, ◌<◌, ◌≤◌, length, IfSome, MatchOption, slice_index_or};
ghost use Rattle.labels.specs.Readings.{Same, opened, negated, both, either, seen};
ghost use Rattle.logic.specs.Logic.{not', and', or', next, previous, until, since};
ghost use Rattle.labelling.specs.Rows.{cell, prior, row, ReadAt, Cleared};
ghost use Rattle.labelling.specs.Tells.{Applied, Combined, AppliedAt};

use labels::LabelKind;

// The row of formula f, with n states to a row.
pub(crate) fn row_of<K>(n: usize, f: usize, cells: &[K]) -> &[K]
    requires { f * n + n ≤ length cells.now }
    ensures { result.now ≡ row n f cells.now }
{
    &cells[f * n..f * n + n]
}

// Makes labels unknown. Not by `fill`: it asks for a clone that cannot fail, which a kind of label does not promise.
pub(crate) fn clear<K: LabelKind + Copy>(cells: &mut [K])
    ensures { Cleared K.reads K.reach cells.new (length cells.old) }
{
    for cell in cells.iter_mut() {
        *cell = K::unknown();
    }
}

// Fills a row with the label of each place.
pub(crate) fn fill_row<K: Copy, F: Fn(usize) -> K>(own: &mut [K], label: F)
    requires callable { (p : ℕ) → p < length own.old → F.pre label p }
    ensures filled { (p : ℕ) (d : K) → p < length own.old → F.post label p (slice_index_or own.new p d) }
{
    for (p, cell) in own.iter_mut().enumerate() {
        *cell = label(p);
    }
}

pub(crate) fn label_not<K: LabelKind + Copy>(a: &[K], own: &mut [K])
    requires long { length a.now ≡ length own.old }
    ensures told { Applied K.reads K.reach (length own.old) not' a.now own.new }
{
    fill_row(
        own,
        |p|
            requires { p < length a.now }
            ensures { Same K.reach (K.reads result) (negated (cell K.reads a.entry.now p)) }
        { a[p].not() },
    );
}

pub(crate) fn label_and<K: LabelKind + Copy>(a: &[K], b: &[K], own: &mut [K])
    requires long { (length a.now ≡ length own.old) × (length b.now ≡ length own.old) }
    ensures told { Combined K.reads K.reach (length own.old) and' a.now b.now own.new }
{
    fill_row(
        own,
        |p|
            requires { (p < length a.now) × (p < length b.now) }
            ensures { Same K.reach (K.reads result) (both (cell K.reads a.entry.now p) (cell K.reads b.entry.now p)) }
        { a[p].and(b[p]) },
    );
}

pub(crate) fn label_or<K: LabelKind + Copy>(a: &[K], b: &[K], own: &mut [K])
    requires long { (length a.now ≡ length own.old) × (length b.now ≡ length own.old) }
    ensures told { Combined K.reads K.reach (length own.old) or' a.now b.now own.new }
{
    fill_row(
        own,
        |p|
            requires { (p < length a.now) × (p < length b.now) }
            ensures { Same K.reach (K.reads result) (either (cell K.reads a.entry.now p) (cell K.reads b.entry.now p)) }
        { a[p].or(b[p]) },
    );
}

// The label at a place of a row, and unknown past its end.
fn label_at<K: LabelKind + Copy>(row: &[K], p: usize) -> K
    ensures { Same K.reach (K.reads result) (cell K.reads row.now p) }
{
    row.get(p).copied().unwrap_or(K::unknown())
}

pub(crate) fn label_next<K: LabelKind + Copy>(a: &[K], own: &mut [K])
    requires long { length a.now ≡ length own.old }
    ensures told { Applied K.reads K.reach (length own.old) next a.now own.new }
{
    fill_row(
        own,
        |p|
            requires { p < length a.now }
            ensures { Same K.reach (K.reads result) (cell K.reads a.entry.now (p + 1)) }
        { label_at(a, p + 1) },
    );
}

// The label at the place before, and false before the first.
fn label_before<K: LabelKind + Copy>(row: &[K], p: usize) -> K
    requires { p ≤ length row.now }
    ensures { Same K.reach (K.reads result) (prior K.reads row.now p) }
{
    if p == 0 { K::false_from(1) } else { row[p - 1] }
}

pub(crate) fn label_previous<K: LabelKind + Copy>(a: &[K], own: &mut [K])
    requires long { length a.now ≡ length own.old }
    ensures told { Applied K.reads K.reach (length own.old) previous a.now own.new }
{
    fill_row(
        own,
        |p|
            requires { p < length a.now }
            ensures { Same K.reach (K.reads result) (seen (p + 1) (prior K.reads a.entry.now p)) }
        { label_before(a, p).seen_from(p + 1) },
    );
}

// Apart from `label_since`: this goes back from what is not known yet, that goes forward from false, and only there is the label
// that is carried seen from each state on.
pub(crate) fn label_until<K: LabelKind + Copy>(a: &[K], b: &[K], own: &mut [K])
    requires long { (length a.now ≡ length own.old) × (length b.now ≡ length own.old) }
    ensures told { Combined K.reads K.reach (length own.old) until a.now b.now own.new }
{
    let mut next = K::unknown();
    // By place: after a loop over `iter_mut().rev()` nothing is known of the cells.
    for p in (0..own.len()).rev() {
        next = b[p].or(a[p].and(next));
        own[p] = next;
    }
}

pub(crate) fn label_since<K: LabelKind + Copy>(a: &[K], b: &[K], own: &mut [K])
    requires long { (length a.now ≡ length own.old) × (length b.now ≡ length own.old) }
    ensures told { Combined K.reads K.reach (length own.old) since a.now b.now own.new }
{
    let mut carried = K::false_from(1);
    // By place in a and b: after a loop over `iter_mut().zip(..)` nothing is known of the cells. To see a label from a place on is
    // to meet it with what is true from there on and to join it with what is false from there on. Both are done with the parts
    // first, so that only two steps wait for the label before.
    for (p, cell) in own.iter_mut().enumerate() {
        let here = a[p];
        let kept = here.and(K::true_from(p + 1));
        let missed = here.and(K::false_from(p + 1));
        let begun = b[p].or(missed);
        carried = begun.or(kept.and(carried));
        *cell = carried;
    }
}

// The label at a state, and unknown where there is none.
fn label_in<K: LabelKind + Copy>(row: &[K], state: Option<usize>) -> K
    requires { IfSome state (λ i. (1 ≤ i) × (i ≤ length row.now)) }
    ensures { ReadAt K.reads K.reach row.now state result }
{
    state.map_or(K::unknown(), |i| row[i - 1])
}

// Labels `at`: the label at the state that carries the nominal, as each state sees it; unknown where none carries it.
pub(crate) fn label_named<K: LabelKind + Copy>(a: &[K], named: Option<usize>, own: &mut [K])
    requires long { length a.now ≡ length own.old }
    requires within { IfSome named (λ i. (1 ≤ i) × (i ≤ length a.now)) }
    ensures told { AppliedAt K.reads K.reach (length own.old) named a.now own.new }
{
    let there = label_in(a, named);
    fill_row(
        own,
        |p|
            requires { p + 1 < 2 ^ 64 }
            ensures { Same K.reach (K.reads result) (seen (p + 1) (K.reads there)) }
        { there.seen_from(p + 1) },
    );
}
