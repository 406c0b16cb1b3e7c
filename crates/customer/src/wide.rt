// A kind of label for logs of up to 128 states: two masks of 128 bits.
ghost use Rattle.std.specs.Prelude.{◌≡◌, ℕ, ◌+◌, ◌<◌, nat_lt, true, false};
ghost use Rattle.labels.specs.Readings.{Sound};
ghost use Rattle.customer.specs.Wide.{wide, bit, Stays};

use labels::LabelKind;

const REACH: usize = 128;

// Bit c - 1 of each mask is the reading at truncation point c.
#[derive(Drop, Clone, Copy, PartialEq, Eq, Debug)]
pub struct Wide {
    weak: u128,
    strong: u128,
    ghost sound: { Sound 128 (wide weak strong) },
    ghost stays_weak: { Stays true 128 (wide weak strong) },
    ghost stays_strong: { Stays false 128 (wide weak strong) },
}

impl LabelKind for Wide {
    ghost reach = { 128 };

    ghost reads = { λ x. wide x.weak x.strong };

    ghost sound = { λ x. x.sound };

    ghost settled = { λ x c d h. (x.stays_weak c d h, x.stays_strong c d h) };

    fn unknown() -> Wide {
        Wide::true_from(REACH + 1)
    }

    #[tactic(auto, using(crate::proofs::Bits::bit_not, crate::proofs::Bits::bit_all))]
    fn true_from(i: usize) -> Wide {
        Wide {
            weak: !0,
            strong: !bits_before(i),
        }
    }

    fn false_from(i: usize) -> Wide {
        Wide::true_from(i).not()
    }

    #[tactic(auto, using(crate::proofs::Bits::bit_not))]
    fn not(self) -> Wide {
        Wide {
            weak: !self.strong,
            strong: !self.weak,
        }
    }

    #[tactic(auto, using(crate::proofs::Bits::bit_of_and))]
    fn and(self, other: Wide) -> Wide {
        Wide {
            weak: self.weak & other.weak,
            strong: self.strong & other.strong,
        }
    }

    #[tactic(auto, using(crate::proofs::Bits::bit_of_or))]
    fn or(self, other: Wide) -> Wide {
        Wide {
            weak: self.weak | other.weak,
            strong: self.strong | other.strong,
        }
    }

    #[tactic(auto, using(crate::proofs::Bits::bit_of_and, crate::proofs::Bits::bit_of_or, crate::proofs::Bits::bit_not))]
    fn seen_from(self, i: usize) -> Wide {
        let before = bits_before(i);
        Wide {
            weak: self.weak | before,
            strong: self.strong & !before,
        }
    }

    fn length() -> usize {
        REACH
    }

    #[tactic(auto, unfolding(crate::specs::Wide::bit))]
    fn read(self, weak: bool, point: usize) -> bool {
        if point == 0 || point > REACH {
            return weak;
        }
        let mask = if weak { self.weak } else { self.strong };
        (mask >> (point - 1)) % 2 == 1
    }
}

// The bits of the points before i.
#[tactic(auto, using(crate::proofs::Bits::bit_zero, crate::proofs::Bits::bit_shifted, crate::proofs::Bits::bit_all))]
fn bits_before(i: usize) -> u128
    ensures { (k : ℕ) → k < 128 → bit result k ≡ nat_lt (k + 1) i }
{
    match i {
        0 => 0,
        1..=REACH => (1 << (i - 1)) - 1,
        _ => !0,
    }
}
