// What every refusal tells.
ghost use Rattle.std.specs.Prelude.{◌≡◌};
ghost use Rattle.faults.specs.Refusals.{Refusal};

use crate::layer::Layer;

// Why something is refused.
pub trait Fault: Sized {
    ghost told: { Self → Refusal };

    // The number of the refusal, as output writes it; a caller that decides matches on the cases.
    fn number(self) -> u8
        ensures { result ≡ (told self).number };

    // The layer that refuses.
    fn layer(self) -> Layer
        ensures { result ≡ (told self).layer };

    // The line or the state that is refused, or 0, which is written for a refusal of neither.
    fn place(self) -> usize
        ensures { result ≡ (told self).place };
}
