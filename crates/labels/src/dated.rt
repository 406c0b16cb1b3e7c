// Dated labels: one number tells what a label means up to point 256.
ghost use Rattle.std.specs.Prelude.{◌≡◌, ◌-◌, min, true, pos, negsuc, ◌+ℤ◌, neg_ℤ, ◌≤ℤ◌, ◌<ℤ◌};
ghost use Rattle.labels.specs.Readings.{Same, DateOf, negated, seen};
ghost use Rattle.labels.specs.Dated.{dated, limited_to};
ghost use Rattle.std.proofs.Common.{arith};
ghost use Rattle.std.proofs.lemmas.Int.{ints};

use super::LabelKind;

// The last truncation point that a dated label tells of.
const REACH: usize = 256;

// 0 is unknown, 257 - d is true from point d on, and d - 257 is false from point d on.
#[derive(Drop, Clone, Copy, PartialEq, Eq, Debug)]
pub struct Dated {
    value: i16,
    ghost low: { negsuc 255 ≤ℤ value },
    ghost high: { value ≤ℤ pos 256 },
}

impl LabelKind for Dated {
    ghost reach = { 256 };

    ghost reads = { λ x. dated x.value };

    // Both laws hold of every number, by arithmetic.
    ghost sound = { λ x c h. Prim.grind (arith, ints) };

    ghost settled = { λ x c d h. Prim.grind (arith, ints) };

    fn unknown() -> Dated {
        Dated { value: 0 }
    }

    fn true_from(i: usize) -> Dated {
        Dated { value: date(i) }
    }

    fn false_from(i: usize) -> Dated {
        Dated { value: -date(i) }
    }

    fn not(self) -> Dated
        ensures meaning { Same 256 (dated result.value) (negated (dated self.value)) }
        ensures number { result.value ≡ neg_ℤ self.value }
    {
        Dated { value: -self.value }
    }

    fn and(self, other: Dated) -> Dated {
        Dated {
            value: self.value.min(other.value),
        }
    }

    fn or(self, other: Dated) -> Dated {
        Dated {
            value: self.value.max(other.value),
        }
    }

    #[tactic(auto, using(crate::proofs::Dates::weak_limited, crate::proofs::Dates::strong_limited))]
    fn seen_from(self, i: usize) -> Dated {
        Dated {
            value: limited(self.value, i),
        }
    }

    fn length() -> usize {
        REACH
    }

    fn read(self, weak: bool, point: usize) -> bool {
        if point > REACH {
            return weak;
        }
        // A cast, which keeps the number: the point is at most 256.
        let point = point as i16;
        if weak {
            point < self.value + 257
        } else {
            257 <= self.value + point
        }
    }
}

impl Dated {
    // The number itself.
    pub fn value(self) -> i16
        ensures { result ≡ self.value }
    {
        self.value
    }

    // The point from which the label is true, or 0 if it is true at none, since a date is defined as a number. The casts keep
    // their numbers, and a conversion would add a failure that never comes.
    pub fn date_of_truth(self) -> usize
        ensures ever { pos 0 <ℤ self.value → pos result +ℤ self.value ≡ pos 257 }
        ensures never { self.value ≤ℤ pos 0 → result ≡ 0 }
        ensures meaning { DateOf 256 (dated self.value) result }
    {
        if self.value > 0 {
            (257 - self.value) as usize
        } else {
            0
        }
    }

    // The point from which the label is false, or 0 if it is false at none, since a date is defined as a number.
    #[tactic(auto, using(crate::proofs::Dates::date_same))]
    pub fn date_of_falsehood(self) -> usize
        ensures ever { self.value <ℤ pos 0 → pos result ≡ self.value +ℤ pos 257 }
        ensures never { pos 0 ≤ℤ self.value → result ≡ 0 }
        ensures meaning { DateOf 256 (negated (dated self.value)) result }
    {
        self.not().date_of_truth()
    }

    // Whether two labels are the same number. They are if they have the same readings, which `==` does not promise.
    #[tactic(auto, using(crate::proofs::Dates::number_by_meaning))]
    pub fn equal(self, other: Dated) -> bool
        ensures alike { self.value ≡ other.value → result ≡ true }
        ensures number { result ≡ true → self.value ≡ other.value }
        ensures meaning { Same 256 (dated self.value) (dated other.value) → result ≡ true }
    {
        self == other
    }
}

// The value, limited to the numbers from false to true from point i on.
fn limited(value: i16, i: usize) -> i16
    ensures { result ≡ limited_to (pos (min 256 (257 - i))) value }
{
    let most = date(i);
    value.clamp(-most, most)
}

// The number of a label that is true from point i on.
fn date(i: usize) -> i16
    ensures { result ≡ pos (min 256 (257 - i)) }
{
    // A cast, which keeps the number: it is at most 256.
    257usize.saturating_sub(i).min(256) as i16
}
