// Document 02, CR 6: the map write, above the key exchange. It goes in exactly if it was written under this session's
// key, at this level, for this kart, with a counter above the last one. The library keeps no state: a new session is a
// new key and a last counter of `NEW_SESSION`, with the map as it stands.
#![tactic(auto)]

pub mod doors;
pub mod judge;
pub mod parts;
pub mod tag;
pub mod writing;

ghost use Rattle.std.specs.Prelude.{◌≡◌, length};
ghost use Rattle.hashing.specs.Refusals.{answer};
ghost use Rattle.maps.specs.Keeping.{kept};
ghost use Rattle.maps.specs.Promises.{WriteMapPromise, AcceptMapPromise};

use exchange::bytes::copy;
use hashing::Refusal;
use hashing::fill::zero;
use ring::little_endian;

pub const NEW_SESSION: u32 = 0;

// The record of a map for a kart. It compares no counters. Level, key and kart stay parameters here and below: C lends
// each by itself, and a struct would be filled at every entry.
pub fn write_map(
    level: u32,
    session_key: &[u8],
    kart: u32,
    counter: u32,
    map: &[u8],
    bytes: &mut [u8],
) -> Result<(), Refusal>
    ensures { WriteMapPromise level session_key.now kart counter map.now (length bytes.old)
        (answer result) bytes.new }
{
    if let Err(refusal) = judge::writing(level, session_key, map, bytes.len()) {
        zero(bytes);
        return Err(refusal);
    }
    writing::write(level, session_key, kart, counter, map, bytes);
    Ok(())
}

// A record at the controller with this kart number: `map` is the stored map and `last` the last accepted counter. The
// counter to keep is the record's, or `last` where the record is refused.
pub fn accept_map(
    level: u32,
    session_key: &[u8],
    kart: u32,
    bytes: &[u8],
    map: &mut [u8],
    last: u32,
) -> Result<u32, Refusal>
    ensures { AcceptMapPromise level session_key.now kart bytes.now map.old last
        (answer result) map.new (kept last result) }
{
    judge::accepting(level, session_key, kart, bytes, map.len(), last)?;
    copy(&bytes[parts::MAP_AT..parts::TAG_AT], map);
    Ok(little_endian::four(bytes, parts::COUNTER_AT))
}

// The counter to keep, of what the acceptance answers.
pub fn kept(last: u32, accepted: Result<u32, Refusal>) -> u32
    ensures { result ≡ kept last accepted }
{
    accepted.unwrap_or(last)
}
