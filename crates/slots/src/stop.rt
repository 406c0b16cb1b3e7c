// What ends a story early.
ghost use Rattle.std.specs.Prelude.{◌≡◌};
ghost use Rattle.slots.specs.declared.stop.Stop.TheVariants.{Refused, Unwritten};

use refusals::Refusal;
use std::io;

#[derive(Drop)]
pub enum Stop {
    Refused(Refusal),
    Unwritten(io::Error),
}

impl From<Refusal> for Stop {
    ghost from_gives = { λ e r. r ≡ Refused e };

    fn from(refusal: Refusal) -> Stop {
        Stop::Refused(refusal)
    }
}

impl From<io::Error> for Stop {
    ghost from_gives = { λ e r. r ≡ Unwritten e };

    fn from(error: io::Error) -> Stop {
        Stop::Unwritten(error)
    }
}
