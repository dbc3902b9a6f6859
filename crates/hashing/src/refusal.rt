// Why an entry refuses.
ghost use Rattle.std.specs.Prelude.{◌≡◌};
ghost use Rattle.hashing.specs.Refusals.{number, answer, given};

// In the order of the documents' numbers: 1 to 13, and 15.
#[derive(Clone, Copy, PartialEq, Eq)]
pub enum Refusal {
    UnknownLevel,
    WrongLength,
    PadBit,
    BadPosition,
    NoInverse,
    Undecoded,
    CutRecord,
    UnknownKind,
    WrongBody,
    WordsRanOut,
    AnotherTag,
    AnotherKart,
    OldCounter,
    TurnTooFar,
}

impl Refusal {
    // The documents' number, which C and the programs are told.
    pub fn number(self) -> u32
        ensures { result ≡ number self }
    {
        match self {
            Refusal::UnknownLevel => 1,
            Refusal::WrongLength => 2,
            Refusal::PadBit => 3,
            Refusal::BadPosition => 4,
            Refusal::NoInverse => 5,
            Refusal::Undecoded => 6,
            Refusal::CutRecord => 7,
            Refusal::UnknownKind => 8,
            Refusal::WrongBody => 9,
            Refusal::WordsRanOut => 10,
            Refusal::AnotherTag => 11,
            Refusal::AnotherKart => 12,
            Refusal::OldCounter => 13,
            Refusal::TurnTooFar => 15,
        }
    }
}

// An entry's answer in numbers: 0, done, or why it refuses.
pub fn answer<T: Copy>(outcome: Result<T, Refusal>) -> u32
    ensures { result ≡ answer outcome }
{
    match outcome {
        Ok(_) => 0,
        Err(refusal) => refusal.number(),
    }
}

// The number that an entry reports: 0 where it refuses.
pub fn given(outcome: Result<u32, Refusal>) -> u32
    ensures { result ≡ given outcome }
{
    outcome.unwrap_or(0)
}
