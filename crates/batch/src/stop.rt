// What stops a run.
ghost use Rattle.std.specs.Prelude.{◌≡◌};
ghost use Rattle.batch.specs.Stops.{number};
ghost use Rattle.batch.specs.declared.stop.Stop.TheVariants.{Refused};

use hashing::refusal::Refusal;

// OutOfTurn: only records are missing, out of turn or of mixed levels.
#[derive(Clone, Copy, PartialEq, Eq)]
pub enum Stop {
    OutOfTurn,
    Refused(Refusal),
}

// A record's stated length runs past the bytes at hand: so many are missing, and what stops the run once they have
// come.
#[derive(Clone, Copy)]
pub struct Pending {
    pub missing: u64,
    pub stop: Stop,
}

impl Stop {
    // The number that a report has for it.
    pub fn number(self) -> u32
        ensures { result ≡ number self }
    {
        match self {
            Stop::OutOfTurn => 0,
            Stop::Refused(refusal) => refusal.number(),
        }
    }
}

impl From<Refusal> for Stop {
    ghost from_gives = { λ refusal stop. stop ≡ Refused refusal };

    fn from(refusal: Refusal) -> Stop {
        Stop::Refused(refusal)
    }
}
