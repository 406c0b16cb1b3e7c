// What a call answers.
ghost use Rattle.std.specs.Prelude.{◌≡◌};
ghost use Rattle.bench_calls.specs.Outcomes.{done, stopped};

use faults::fault::Fault;

// `refused` is the number of the refusal and `place` its line or state; both are 0 where nothing was refused. `count` is how much
// was done. Numbers, and no enum: it crosses to a caller in another language.
#[repr(C)]
#[derive(Drop, Clone, Copy)]
pub struct Outcome {
    pub refused: u8,
    pub place: usize,
    pub count: usize,
}

impl Outcome {
    pub(crate) fn done(count: usize) -> Outcome
        ensures { result ≡ done count }
    {
        Outcome {
            refused: 0,
            place: 0,
            count,
        }
    }

    pub(crate) fn stopped<F: Fault + Copy>(fault: F, count: usize) -> Outcome
        ensures { result ≡ stopped (F.told fault) count }
    {
        Outcome {
            refused: fault.number(),
            place: fault.place(),
            count,
        }
    }
}
