// The entries, and what each takes and gives.
ghost use Rattle.std.specs.Prelude.{◌≡◌};
ghost use Rattle.cases.specs.Entries.{number, Decodes};

use lines::Fault;

// In the order of their numbers, from 1 on.
#[derive(Clone, Copy)]
pub enum Entry {
    Shake256 = 1,
    Sha3_384,
    Product,
    Inverse,
    ErrorOf,
    Decode,
    MakeKey,
    Wrap,
    Open,
    ReadRecord,
    Pack,
    Unpack,
    FairPolynomial,
    WriteMap,
    AcceptMap,
    DecodeEarly,
    RotateKey,
}

impl TryFrom<u8> for Entry {
    type Error = Fault;

    ghost try_from_gives = { Decodes };

    fn try_from(number: u8) -> Result<Self, Fault> {
        match number {
            1 => Ok(Entry::Shake256),
            2 => Ok(Entry::Sha3_384),
            3 => Ok(Entry::Product),
            4 => Ok(Entry::Inverse),
            5 => Ok(Entry::ErrorOf),
            6 => Ok(Entry::Decode),
            7 => Ok(Entry::MakeKey),
            8 => Ok(Entry::Wrap),
            9 => Ok(Entry::Open),
            10 => Ok(Entry::ReadRecord),
            11 => Ok(Entry::Pack),
            12 => Ok(Entry::Unpack),
            13 => Ok(Entry::FairPolynomial),
            14 => Ok(Entry::WriteMap),
            15 => Ok(Entry::AcceptMap),
            16 => Ok(Entry::DecodeEarly),
            17 => Ok(Entry::RotateKey),
            _ => Err(Fault::Bad),
        }
    }
}

impl Entry {
    pub fn number(self) -> u8
        ensures { result ≡ number self }
    {
        self as u8
    }

    // How many numbers an entry has: a kart number and a counter, or how far a key is to be rotated.
    pub fn numbers(self) -> u8 {
        match self {
            Entry::WriteMap | Entry::AcceptMap => 2,
            Entry::RotateKey => 1,
            _ => 0,
        }
    }

    pub fn inputs(self) -> u8 {
        match self {
            Entry::Product
            | Entry::Decode
            | Entry::Wrap
            | Entry::Open
            | Entry::WriteMap
            | Entry::AcceptMap
            | Entry::DecodeEarly => 2,
            _ => 1,
        }
    }

    // A stored map is an output that is read before.
    pub fn outputs(self) -> usize {
        match self {
            Entry::ReadRecord => 0,
            Entry::ErrorOf | Entry::Decode | Entry::MakeKey | Entry::Wrap | Entry::DecodeEarly => 2,
            _ => 1,
        }
    }
}
