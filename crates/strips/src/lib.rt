// Strips: labels of two masks, for logs of up to 64 states.
#![tactic(auto)]

ghost use Rattle.std.specs.Prelude.{◌≡◌, ℕ, ◌+◌, ◌-◌, ◌^◌, ◌<◌, ◌≤◌, min, true, false, nat_lt, ◌==◌};
ghost use Rattle.std.specs.Int.Count.{count_trailing_zeros};
ghost use Rattle.labels.specs.Readings.{Same, Sound, Settled, DateOf, fixed, negated, both, either, seen};
ghost use Rattle.labels.specs.Dated.{dated};
ghost use Rattle.strips.specs.Masks.{strip, bit, TrueBy};

use labels::LabelKind;
use labels::dated::Dated;

// The last truncation point that a strip tells of.
const REACH: usize = 64;

// Bit c - 1 of each mask is the reading at truncation point c.
#[derive(Drop, Clone, Copy, PartialEq, Eq, Debug)]
pub struct Strip {
    weak: u64,
    strong: u64,
    ghost sound: { Sound 64 (strip weak strong) },
    ghost settled: { Settled 64 (strip weak strong) },
}

impl LabelKind for Strip {
    ghost reach = { 64 };

    ghost reads = { λ x. strip x.weak x.strong };

    ghost sound = { λ x. x.sound };

    ghost settled = { λ x. x.settled };

    // Its weak mask is all ones and its strong mask is 0.
    fn unknown() -> Strip {
        Strip::true_from(REACH + 1)
    }

    #[tactic(auto, using(crate::proofs::Bits::bit_not, crate::proofs::Bits::bit_all))]
    fn true_from(i: usize) -> Strip {
        Strip {
            weak: !0,
            strong: !bits_before(i),
        }
    }

    fn false_from(i: usize) -> Strip {
        Strip::true_from(i).not()
    }

    #[tactic(auto, using(crate::proofs::Bits::bit_not))]
    fn not(self) -> Strip {
        Strip {
            weak: !self.strong,
            strong: !self.weak,
        }
    }

    #[tactic(auto, using(crate::proofs::Bits::bit_of_and))]
    fn and(self, other: Strip) -> Strip {
        Strip {
            weak: self.weak & other.weak,
            strong: self.strong & other.strong,
        }
    }

    #[tactic(auto, using(crate::proofs::Bits::bit_of_or))]
    fn or(self, other: Strip) -> Strip {
        Strip {
            weak: self.weak | other.weak,
            strong: self.strong | other.strong,
        }
    }

    #[tactic(auto, using(crate::proofs::Bits::bit_of_and, crate::proofs::Bits::bit_of_or, crate::proofs::Bits::bit_not))]
    fn seen_from(self, i: usize) -> Strip {
        let before = bits_before(i);
        Strip {
            weak: self.weak | before,
            strong: self.strong & !before,
        }
    }

    fn length() -> usize {
        REACH
    }

    #[tactic(auto, unfolding(crate::specs::Masks::bit))]
    fn read(self, weak: bool, point: usize) -> bool {
        if point == 0 || point > REACH {
            return weak;
        }
        let mask = if weak { self.weak } else { self.strong };
        (mask >> (point - 1)) % 2 == 1
    }
}

impl Strip {
    // The mask of the weak readings.
    pub fn weak(self) -> u64
        ensures { result ≡ self.weak }
    {
        self.weak
    }

    // The mask of the strong readings.
    pub fn strong(self) -> u64
        ensures { result ≡ self.strong }
    {
        self.strong
    }

    // The point from which the label is true, or 0 if it is true at none: that of the lowest set bit. 0, since a date is
    // defined as a number.
    #[tactic(auto, using(crate::proofs::Bits::bit_zero, crate::proofs::Bits::lowest_within, crate::proofs::Bits::lowest_here, crate::proofs::Bits::lowest_below))]
    pub fn date_of_truth(self) -> u32
        ensures never { self.strong ≡ 0 → result ≡ 0 }
        ensures ever { 0 < self.strong → result ≡ count_trailing_zeros 64 self.strong + 1 }
        ensures meaning { DateOf 64 (strip self.weak self.strong) result }
    {
        if self.strong == 0 {
            0
        } else {
            self.strong.trailing_zeros() + 1
        }
    }
}

// Whether a dated label and a strip have the same date of truth. They have if they mean the same at the points from 1 to 64,
// and the dated label does not become true after that.
#[tactic(auto, using(labels::proofs::Dates::date_only, crate::proofs::Comparing::dates_agree))]
pub fn same_date(a: Dated, b: Strip) -> bool
    ensures dates { (d e : ℕ) → DateOf 256 (dated a.value) d → DateOf 64 (strip b.weak b.strong) e → result ≡ (d == e) }
    ensures meaning { Same 64 (dated a.value) (strip b.weak b.strong) → TrueBy 64 256 (dated a.value) → result ≡ true }
{
    // A cast, since no `From` leads from `u32` to `usize`.
    a.date_of_truth() == b.date_of_truth() as usize
}

// The bits of the points before i.
#[tactic(auto, using(crate::proofs::Bits::bit_zero, crate::proofs::Bits::bit_shifted, crate::proofs::Bits::bit_all))]
fn bits_before(i: usize) -> u64
    ensures { (k : ℕ) → k < 64 → bit result k ≡ nat_lt (k + 1) i }
{
    match i {
        0 => 0,
        1..=REACH => (1 << (i - 1)) - 1,
        _ => !0,
    }
}
