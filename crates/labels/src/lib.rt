// Labels: what is known of a formula at a state, at every truncation point of a log.
#![tactic(auto)]

ghost use Rattle.std.specs.Prelude.{◌≡◌, ℕ, ◌<◌, ◌≤◌, Bool, true, false};
ghost use Rattle.labels.specs.Readings.{Same, Sound, Settled, opened, fixed, negated, both, either, seen};

pub mod dated;

// A kind of label, with the operations that labelling is made of. No operation is refused.
pub trait LabelKind: Sized {
    // The kind's length: its labels tell of the truncation points from 1 to `reach`.
    ghost reach: { ℕ };

    // The weak reading at `true` and the strong one at `false`, at a truncation point.
    ghost reads: { Self → Bool → ℕ → Bool };

    fn unknown() -> Self
        ensures { Same reach (reads result) opened };

    // True from point i on, and unknown before.
    fn true_from(i: usize) -> Self
        ensures { Same reach (reads result) (fixed i true) };

    // False from point i on, and unknown before.
    fn false_from(i: usize) -> Self
        ensures { Same reach (reads result) (fixed i false) };

    fn not(self) -> Self
        ensures { Same reach (reads result) (negated (reads self)) };

    fn and(self, other: Self) -> Self
        ensures { Same reach (reads result) (both (reads self) (reads other)) };

    fn or(self, other: Self) -> Self
        ensures { Same reach (reads result) (either (reads self) (reads other)) };

    // The same from point i on, and unknown before.
    fn seen_from(self, i: usize) -> Self
        ensures { Same reach (reads result) (seen i (reads self)) };

    fn length() -> usize
        ensures { result ≡ reach };

    // The weak or the strong reading at a point; outside 1 to `reach` that of an unknown label.
    fn read(self, weak: bool, point: usize) -> bool
        ensures within { 0 < point → point ≤ reach → result ≡ reads self weak point }
        ensures before { point ≡ 0 → result ≡ weak }
        ensures beyond { reach < point → result ≡ weak };

    // Two laws of every label. A kind that keeps each of them as a ghost field gives that field, as `λ x. x.sound`; where they
    // follow from what a label is made of, a proof of them is given.
    ghost sound: { (x : Self) → Sound reach (reads x) };

    ghost settled: { (x : Self) → Settled reach (reads x) };
}
