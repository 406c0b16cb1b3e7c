ghost use Rattle.std.specs.Prelude.{ℕ, MatchOption};
ghost use Rattle.fields.specs.Lines.{Number};

// A number above this one is out of range, whatever it stands for.
pub const NUMBER_LIMIT: u64 = 4294967295;

const MOST_DIGITS: usize = 10;

const ZERO: u8 = b'0';

// The number that a text shows.
pub(crate) fn number(text: &[u8]) -> Option<u64>
    ensures { MatchOption result ((n : ℕ) → Number text.now n → ⊥) (λ n. Number text.now n) }
{
    if text.len() > MOST_DIGITS {
        return None;
    }
    if let [] | [ZERO, _, ..] = text {
        return None;
    }
    let mut n: u64 = 0;
    for b in text {
        if !b.is_ascii_digit() {
            return None;
        }
        n = n * 10 + u64::from(*b - ZERO);
    }
    Some(n)
}
