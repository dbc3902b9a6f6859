// BIKE as document 01 fixes it: key making, wrapping, decoding, opening, and the record reader. An entry is judged
// first (`judge`); a number that shows only in the work comes after the judge's. Level, keys and buffers stay parameters:
// C lends each by itself.
#![tactic(auto)]

pub mod bytes;
pub mod decoder;
mod decoding;
pub mod digest;
pub mod doors;
pub mod error;
mod fair;
pub mod halves;
mod judge;
pub mod keys;
mod masks;
pub mod opening;
pub mod record;
mod sampler;
mod wrapping;

ghost use Rattle.std.specs.Prelude.{length};
ghost use Rattle.hashing.specs.Refusals.{answer, given};
ghost use Rattle.exchange.specs.Promises.{ErrorOfPromise, ErrorCountPromise, MakeKeyPromise, counts_given, KeyCountPromise, FairPromise, fair_given, FairCountPromise, WrapPromise, DecodePromise, RoundsPromise, OpenPromise};

pub use fair::FairCounts;
use hashing::Refusal;
use hashing::fill::zero;
pub use keys::KeyCounts;
pub use record::read_record;

// H: the error of a message, and how many of its positions were replaced.
pub fn error_of(level: u32, message: &[u8], e0: &mut [u8], e1: &mut [u8]) -> Result<u32, Refusal>
    ensures error_of_promise { ErrorOfPromise level message.now (length e0.old) (length e1.old)
        (answer result) e0.new e1.new }
    ensures error_count_promise { ErrorCountPromise level message.now (length e0.old) (length e1.old) (given result) }
{
    if let Err(refusal) = judge::error(level, message, e0.len(), e1.len()) {
        zero(e0);
        zero(e1);
        return Err(refusal);
    }
    Ok(error::hash_h(level, message, e0, e1))
}

// Key making: a public and a private key from a seed, and how many words each half of the key used and passed over.
pub fn make_key(
    level: u32,
    seed: &[u8],
    public_key: &mut [u8],
    private_key: &mut [u8],
) -> Result<KeyCounts, Refusal>
    ensures make_key_promise { MakeKeyPromise level seed.now (length public_key.old) (length private_key.old)
        (answer result) public_key.new private_key.new }
    ensures key_count_promise { KeyCountPromise level seed.now (length public_key.old) (length private_key.old)
        (counts_given result) }
{
    let made = keys::judged(level, seed, public_key, private_key);
    if made.is_err() {
        zero(public_key);
        zero(private_key);
    }
    made
}

// One polynomial of key making from lent words, how many of them were used, and how many of those were passed over.
pub fn fair_polynomial(level: u32, words: &[u32], out: &mut [u8]) -> Result<FairCounts, Refusal>
    ensures fair_promise { FairPromise level words.now (length out.old) (answer result) out.new }
    ensures fair_count_promise { FairCountPromise level words.now (length out.old) (fair_given result).used
        (fair_given result).passed }
{
    let drawn = fair::write(level, words, out);
    if drawn.is_err() {
        zero(out);
    }
    drawn
}

// Wrapping: a ciphertext and a session key from a public key and a message.
pub fn wrap(
    level: u32,
    public_key: &[u8],
    message: &[u8],
    ciphertext: &mut [u8],
    session_key: &mut [u8],
) -> Result<(), Refusal>
    ensures { WrapPromise level public_key.now message.now (length ciphertext.old)
        (length session_key.old) (answer result) ciphertext.new session_key.new }
{
    if let Err(refusal) = judge::wrapping(
        level,
        public_key,
        message,
        ciphertext.len(),
        session_key.len(),
    ) {
        zero(ciphertext);
        zero(session_key);
        return Err(refusal);
    }
    wrapping::write(level, public_key, message, ciphertext, session_key);
    Ok(())
}

// Decoding: the error of a syndrome under a private key, and zeros where it is not found.
pub fn decode(
    level: u32,
    private_key: &[u8],
    syndrome: &[u8],
    e0: &mut [u8],
    e1: &mut [u8],
) -> Result<(), Refusal>
    ensures { DecodePromise level private_key.now syndrome.now (length e0.old)
        (length e1.old) (answer result) e0.new e1.new }
{
    if let Err(refusal) = judge::decoding(level, private_key, syndrome, e0.len(), e1.len()) {
        zero(e0);
        zero(e1);
        return Err(refusal);
    }
    if decoding::write(level, private_key, syndrome, e0, e1) {
        return Err(Refusal::Undecoded);
    }
    Ok(())
}

// The rounds are told beside a refusal too: 5 where the error is not found, else 0.
#[derive(Drop)]
pub struct Decoded {
    pub answer: Result<(), Refusal>,
    pub rounds: u32,
}

// The same by rounds that stop when the residual is gone, and how many were done.
pub fn decode_early(
    level: u32,
    private_key: &[u8],
    syndrome: &[u8],
    e0: &mut [u8],
    e1: &mut [u8],
) -> Decoded
    ensures decode_promise { DecodePromise level private_key.now syndrome.now (length e0.old)
        (length e1.old) (answer result.answer) e0.new e1.new }
    ensures rounds_promise { RoundsPromise level private_key.now syndrome.now (length e0.old)
        (length e1.old) result.rounds }
{
    if let Err(refusal) = judge::decoding(level, private_key, syndrome, e0.len(), e1.len()) {
        zero(e0);
        zero(e1);
        return Decoded {
            answer: Err(refusal),
            rounds: 0,
        };
    }
    let told = decoding::write_early(level, private_key, syndrome, e0, e1);
    let rounds = told.rounds;
    if told.failed {
        let answer = Err(Refusal::Undecoded);
        return Decoded { answer, rounds };
    }
    Decoded {
        answer: Ok(()),
        rounds,
    }
}

// Opening: the session key of a ciphertext under a private key. A ciphertext that no message fits is no refusal.
pub fn open(
    level: u32,
    private_key: &[u8],
    ciphertext: &[u8],
    session_key: &mut [u8],
) -> Result<(), Refusal>
    ensures { OpenPromise level private_key.now ciphertext.now (length session_key.old)
        (answer result) session_key.new }
{
    if let Err(refusal) = judge::opening(level, private_key, ciphertext, session_key.len()) {
        zero(session_key);
        return Err(refusal);
    }
    opening::write(level, private_key, ciphertext, session_key);
    Ok(())
}
