// Records: a length, a kind and a body.
ghost use Rattle.std.specs.Prelude.{◌≡◌, ◌<◌, [], ◌∷◌, length};
ghost use Rattle.hashing.specs.Answers.Outcome.{gives};
ghost use Rattle.ring.specs.Levels.{level_of};
ghost use Rattle.exchange.specs.Records.{thing_number, body_bytes, NamesThing, NamesKind, outcome_of, RecordPromise, Lists};

use hashing::refusal::Refusal;
use ring::{level, little_endian, size};

#[derive(Clone, Copy, PartialEq, Eq)]
pub enum Thing {
    Seed,
    PublicKey,
    PrivateKey,
    Ciphertext,
    Message,
    SessionKey,
}

impl Thing {
    // Document 01's number.
    pub fn number(self) -> u32
        ensures { result ≡ thing_number self }
    {
        match self {
            Thing::Seed => 1,
            Thing::PublicKey => 2,
            Thing::PrivateKey => 3,
            Thing::Ciphertext => 4,
            Thing::Message => 5,
            Thing::SessionKey => 6,
        }
    }
}

impl TryFrom<u32> for Thing {
    type Error = Refusal;

    ghost try_from_gives = { NamesThing };

    fn try_from(number: u32) -> Result<Thing, Refusal> {
        match number {
            1 => Ok(Thing::Seed),
            2 => Ok(Thing::PublicKey),
            3 => Ok(Thing::PrivateKey),
            4 => Ok(Thing::Ciphertext),
            5 => Ok(Thing::Message),
            6 => Ok(Thing::SessionKey),
            _ => Err(Refusal::UnknownKind),
        }
    }
}

// A thing of a known level.
#[derive(Clone, Copy, PartialEq, Eq)]
pub struct Kind {
    pub level: u32,
    pub thing: Thing,
}

impl TryFrom<u32> for Kind {
    type Error = Refusal;

    ghost try_from_gives = { NamesKind };

    fn try_from(kind: u32) -> Result<Kind, Refusal> {
        let level = kind / 256;
        if !level::known(level) {
            return Err(Refusal::UnknownKind);
        }
        let thing = Thing::try_from(kind % 256)?;
        Ok(Kind { level, thing })
    }
}

impl Kind {
    // How long a body of this kind must be.
    #[tactic(auto, unfolding(crate::specs::Records::body_bytes))]
    fn body_bytes(self) -> usize
        ensures { result ≡ body_bytes (level_of self.level) (thing_number self.thing) }
    {
        match self.thing {
            Thing::Seed => size::SEED,
            Thing::PublicKey => size::polynomial(self.level),
            Thing::PrivateKey => size::private_key(self.level),
            Thing::Ciphertext => size::ciphertext(self.level),
            Thing::Message | Thing::SessionKey => size::MESSAGE,
        }
    }
}

#[derive(Clone, Copy, PartialEq, Eq)]
pub struct Record {
    pub kind: Kind,
    pub body: usize,
}

// The length that a record states is compared with what is there before anything is added to it: it may be 2^32 - 1.
pub fn read_record(bytes: &[u8]) -> Result<Record, Refusal>
    ensures { RecordPromise bytes.now result }
{
    if bytes.len() < 6 {
        return Err(Refusal::CutRecord);
    }
    let body = little_endian::four(bytes, 0) as usize;
    if bytes.len() - 6 < body {
        return Err(Refusal::CutRecord);
    }
    let kind = Kind::try_from(little_endian::two(bytes, 4))?;
    if body != kind.body_bytes() {
        return Err(Refusal::WrongBody);
    }
    Ok(Record { kind, body })
}

// A reading by document 01's numbers: 0 and the record's, or a refusal's and zeros.
#[derive(Clone, Copy)]
pub struct Numbers {
    pub answer: u32,
    pub level: u32,
    pub thing: u32,
    pub body: usize,
}

impl Numbers {
    #[tactic(auto, unfolding(crate::specs::Records::outcome_of))]
    pub fn of(reading: Result<Record, Refusal>) -> Numbers
        ensures { gives result.answer ((result.level ∷ result.thing ∷ result.body ∷ []) ∷ []) ≡ outcome_of reading }
    {
        match reading {
            Ok(Record { kind, body }) => Numbers {
                answer: 0,
                level: kind.level,
                thing: kind.thing.number(),
                body,
            },
            Err(refusal) => Numbers {
                answer: refusal.number(),
                level: 0,
                thing: 0,
                body: 0,
            },
        }
    }
}

// A line of a listing: what is read, and where the next record begins: after a refusal, at the end.
#[derive(Clone, Copy)]
pub struct Line {
    pub reading: Result<Record, Refusal>,
    pub next: usize,
}

pub fn line_at(bytes: &[u8], at: usize) -> Line
    requires { at < length bytes.now }
    ensures { Lists bytes.now at result }
{
    let reading = read_record(&bytes[at..]);
    let next = match reading {
        Ok(record) => at + 6 + record.body,
        Err(_) => bytes.len(),
    };
    Line { reading, next }
}
