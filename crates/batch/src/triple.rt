// The triple at the front of the bytes at hand, which are all that come, or 16,384 at least.
ghost use Rattle.std.specs.Prelude.{◌≡◌, true, List, [], ◌++◌, ℕ, ◌+◌, ◌≤◌, ◌<◌, length, drop, Err};
ghost use Rattle.ring.specs.Levels.{known, level_of, message_bytes, poly_bytes, private_bytes};
ghost use Rattle.exchange.specs.Records.{body_of};
ghost use Rattle.batch.specs.Triples;
ghost use Rattle.batch.specs.Triples.{judged, key_in, level_in, message_in, public_in, triple, turns};
ghost use Rattle.batch.specs.inner.Windows.{Suffices, Within, beyond, meant, too_long};

use crate::contents::{Gain, contents};
use crate::records::{Fault, in_turn};
use crate::stop::{Pending, Stop};
use exchange::record::Kind;
use hashing::refusal::Refusal;
use ring::{little_endian, size};

// What the bytes at hand tell of a triple. That it waits is no failure.
#[derive(Drop)]
pub enum Look {
    Known(Result<Gain, Stop>),
    Waits(Pending),
}

// By number, as `in_turn` takes any.
const THINGS: [u32; 3] = [3, 2, 5];

fn whole(level: u32, bytes: &[u8], used: usize) -> Result<Gain, Stop>
    requires { (known level ≡ true) × (used ≡ 18 + private_bytes (level_of level) + poly_bytes (level_of level) + message_bytes)
        × (used ≤ length bytes.now) }
    ensures { result ≡ Triples.contents (level_of level) (key_in (level_of level) bytes.now)
        (public_in (level_of level) bytes.now) (message_in (level_of level) bytes.now) used }
{
    let private_end = 6 + size::private_key(level);
    let public_at = private_end + 6;
    let public_end = public_at + size::polynomial(level);
    let message_at = public_end + 6;
    contents(
        level,
        &bytes[6..private_end],
        &bytes[public_at..public_end],
        &bytes[message_at..used],
        used,
    )
}

// What stops the run at a record whose length is too large for any kind.
fn too_long(kind: u32) -> Stop
    ensures { result ≡ too_long kind }
{
    match Kind::try_from(kind) {
        Ok(_) => Stop::Refused(Refusal::WrongBody),
        Err(refusal) => Stop::Refused(refusal),
    }
}

// A record at `at` whose length runs past the bytes at hand: only its kind is asked.
fn beyond(bytes: &[u8], at: usize) -> Pending
    requires { (at + 6 ≤ length bytes.now) × (length bytes.now ≤ at + 6 + body_of (drop at bytes.now)) }
    ensures { result ≡ beyond bytes.now at }
{
    let here = &bytes[at..];
    let end = 6 + little_endian::four(here, 0) as u64;
    Pending {
        missing: end - here.len() as u64,
        stop: too_long(little_endian::two(here, 4)),
    }
}

// Of a fault, only a cut record may change by the bytes that still come.
fn faulty(bytes: &[u8], fault: Fault, ended: bool) -> Look
    requires bytes_value { turns triple (level_in bytes.now) bytes.now 0 ≡ Err fault }
    requires enough_in_bounds { Suffices (length bytes.now) ended }
    ensures by_index { (rest : List ℕ) → (ended ≡ true → rest ≡ []) → judged (bytes.now ++ rest) ≡ meant result rest }
    ensures within { Within (length bytes.now) result }
{
    if fault.stop == Stop::Refused(Refusal::CutRecord) && !ended {
        return Look::Waits(beyond(bytes, fault.from));
    }
    Look::Known(Err(fault.stop))
}

pub fn look_at(bytes: &[u8], ended: bool) -> Look
    requires fact_1 { 0 < length bytes.now }
    requires fact_2 { Suffices (length bytes.now) ended }
    ensures by_index { (rest : List ℕ) → (ended ≡ true → rest ≡ []) → judged (bytes.now ++ rest) ≡ meant result rest }
    ensures within { Within (length bytes.now) result }
{
    if bytes.len() < 6 {
        return Look::Known(Err(Stop::Refused(Refusal::CutRecord)));
    }
    let level = little_endian::two(bytes, 4) / 256;
    match in_turn(&THINGS, level, bytes) {
        Ok(used) => Look::Known(whole(level, bytes, used)),
        Err(fault) => faulty(bytes, fault, ended),
    }
}
