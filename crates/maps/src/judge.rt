// What each entry refuses, before anything is written: the first that applies.
ghost use Rattle.std.specs.Prelude.{◌≡◌, true, ◌≤◌, length};
ghost use Rattle.hashing.specs.Answers.{first_of};
ghost use Rattle.hashing.specs.Refusals.{answer};
ghost use Rattle.ring.specs.Levels;
ghost use Rattle.ring.specs.Levels.{message_bytes};
ghost use Rattle.maps.specs.Promises.{writing_reasons, form_reasons, meant_reasons, accepting_reasons};
ghost use Rattle.maps.specs.Writes.{record_bytes};

use crate::parts;
use crate::tag::tag_of;
use exchange::bytes::same;
use hashing::Refusal;
use ring::level::known;
use ring::{little_endian, size};

pub fn writing(level: u32, session_key: &[u8], map: &[u8], room: usize) -> Result<(), Refusal>
    ensures { answer result ≡ first_of (writing_reasons level session_key.now map.now room) }
{
    if !known(level) {
        return Err(Refusal::UnknownLevel);
    }
    if (session_key.len() != size::MESSAGE) | (map.len() != parts::MAP) | (room != parts::RECORD) {
        return Err(Refusal::WrongLength);
    }
    Ok(())
}

// The length that a record states is compared with what is there before anything is added to it, as in the record
// reader.
fn form(level: u32, bytes: &[u8]) -> Result<(), Refusal>
    requires { Levels.known level ≡ true }
    ensures { answer result ≡ first_of (form_reasons level bytes.now) }
{
    if bytes.len() < 6 {
        return Err(Refusal::CutRecord);
    }
    let body = little_endian::four(bytes, 0) as usize;
    if bytes.len() - 6 < body {
        return Err(Refusal::CutRecord);
    }
    if little_endian::two(bytes, parts::KIND_AT) != u32::from(parts::kind(level)) {
        return Err(Refusal::UnknownKind);
    }
    if body != parts::BODY {
        return Err(Refusal::WrongBody);
    }
    Ok(())
}

// Whether a record in form was meant for this kart in this session, and now. All bytes of the tag are compared,
// whatever they hold.
fn meant(session_key: &[u8], kart: u32, bytes: &[u8], last: u32) -> Result<(), Refusal>
    requires { (length session_key.now ≡ message_bytes) × (record_bytes ≤ length bytes.now) }
    ensures { answer result ≡ first_of (meant_reasons session_key.now kart bytes.now last) }
{
    let tag = tag_of(session_key, &bytes[parts::KIND_AT..parts::TAG_AT]);
    if !same(&bytes[parts::TAG_AT..parts::RECORD], &tag) {
        return Err(Refusal::AnotherTag);
    }
    if little_endian::four(bytes, parts::KART_AT) != kart {
        return Err(Refusal::AnotherKart);
    }
    if little_endian::four(bytes, parts::COUNTER_AT) <= last {
        return Err(Refusal::OldCounter);
    }
    Ok(())
}

pub fn accepting(
    level: u32,
    session_key: &[u8],
    kart: u32,
    bytes: &[u8],
    room: usize,
    last: u32,
) -> Result<(), Refusal>
    ensures { answer result ≡ first_of (accepting_reasons level session_key.now kart bytes.now room last) }
{
    if !known(level) {
        return Err(Refusal::UnknownLevel);
    }
    if (session_key.len() != size::MESSAGE) | (room != parts::MAP) {
        return Err(Refusal::WrongLength);
    }
    form(level, bytes)?;
    meant(session_key, kart, bytes, last)
}
