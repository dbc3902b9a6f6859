// What each entry refuses, before anything is written: down document 01's column, the first that applies. An output
// comes in by its actual length, its room.
ghost use Rattle.std.specs.Prelude.{◌≡◌, length};
ghost use Rattle.hashing.specs.Answers.{first_of};
ghost use Rattle.hashing.specs.Refusals.{answer};
ghost use Rattle.ring.specs.Levels.{level_of, poly_bytes, private_bytes};
ghost use Rattle.exchange.specs.Doors.{making_door_reasons};
ghost use Rattle.exchange.specs.Promises.{error_reasons, making_reasons, fair_reasons, wrapping_reasons, content_reasons, decoding_reasons, opening_reasons};

use crate::decoder::{is_good, read_key};
use crate::fair::MOST_WORDS;
use hashing::Refusal;
use ring::layout::pad_set;
use ring::level::known;
use ring::size;

// A report's four numbers have 4 bytes each.
const REPORT: usize = 16;

pub fn error(level: u32, message: &[u8], room0: usize, room1: usize) -> Result<(), Refusal>
    ensures { answer result ≡ first_of (error_reasons level message.now room0 room1) }
{
    if !known(level) {
        return Err(Refusal::UnknownLevel);
    }
    let n = size::polynomial(level);
    if (message.len() != size::MESSAGE) | (room0 != n) | (room1 != n) {
        return Err(Refusal::WrongLength);
    }
    Ok(())
}

pub fn making(
    level: u32,
    seed: &[u8],
    room_public: usize,
    room_private: usize,
) -> Result<(), Refusal>
    ensures { answer result ≡ first_of (making_reasons level seed.now room_public room_private) }
{
    if !known(level) {
        return Err(Refusal::UnknownLevel);
    }
    if (seed.len() != size::SEED)
        | (room_public != size::polynomial(level))
        | (room_private != size::private_key(level))
    {
        return Err(Refusal::WrongLength);
    }
    Ok(())
}

pub fn fair(level: u32, count: usize, room: usize) -> Result<(), Refusal>
    ensures { answer result ≡ first_of (fair_reasons level count room) }
{
    if !known(level) {
        return Err(Refusal::UnknownLevel);
    }
    if (count > MOST_WORDS) | (room != size::polynomial(level)) {
        return Err(Refusal::WrongLength);
    }
    Ok(())
}

// The door of key making has a report too.
pub fn making_door(
    level: u32,
    seed: &[u8],
    room_public: usize,
    room_private: usize,
    room_report: usize,
) -> Result<(), Refusal>
    ensures { answer result ≡ first_of (making_door_reasons level seed.now room_public room_private room_report) }
{
    making(level, seed, room_public, room_private)?;
    if room_report != REPORT {
        return Err(Refusal::WrongLength);
    }
    Ok(())
}

pub fn wrapping(
    level: u32,
    public_key: &[u8],
    message: &[u8],
    room_ciphertext: usize,
    room_key: usize,
) -> Result<(), Refusal>
    ensures { answer result ≡ first_of (wrapping_reasons level public_key.now message.now room_ciphertext room_key) }
{
    if !known(level) {
        return Err(Refusal::UnknownLevel);
    }
    if (public_key.len() != size::polynomial(level))
        | (message.len() != size::MESSAGE)
        | (room_ciphertext != size::ciphertext(level))
        | (room_key != size::MESSAGE)
    {
        return Err(Refusal::WrongLength);
    }
    if pad_set(size::block(level), public_key) {
        return Err(Refusal::PadBit);
    }
    Ok(())
}

// Decoding and opening, once the lengths are right.
fn contents(level: u32, private_key: &[u8], polynomial: &[u8]) -> Result<(), Refusal>
    requires { (length private_key.now ≡ private_bytes (level_of level)) × (length polynomial.now ≡ poly_bytes (level_of level)) }
    ensures { answer result ≡ first_of (content_reasons (level_of level) private_key.now polynomial.now) }
{
    if pad_set(size::block(level), polynomial) {
        return Err(Refusal::PadBit);
    }
    if !is_good(level, read_key(level, private_key)) {
        return Err(Refusal::BadPosition);
    }
    Ok(())
}

pub fn decoding(
    level: u32,
    private_key: &[u8],
    syndrome: &[u8],
    room0: usize,
    room1: usize,
) -> Result<(), Refusal>
    ensures { answer result ≡ first_of (decoding_reasons level private_key.now syndrome.now room0 room1) }
{
    if !known(level) {
        return Err(Refusal::UnknownLevel);
    }
    let n = size::polynomial(level);
    if (private_key.len() != size::private_key(level))
        | (syndrome.len() != n)
        | (room0 != n)
        | (room1 != n)
    {
        return Err(Refusal::WrongLength);
    }
    contents(level, private_key, syndrome)
}

pub fn opening(
    level: u32,
    private_key: &[u8],
    ciphertext: &[u8],
    room_key: usize,
) -> Result<(), Refusal>
    ensures { answer result ≡ first_of (opening_reasons level private_key.now ciphertext.now room_key) }
{
    if !known(level) {
        return Err(Refusal::UnknownLevel);
    }
    let n = size::polynomial(level);
    if (private_key.len() != size::private_key(level))
        | (ciphertext.len() != size::ciphertext(level))
        | (room_key != size::MESSAGE)
    {
        return Err(Refusal::WrongLength);
    }
    contents(level, private_key, &ciphertext[..n])
}
