// The record of a map write, once it is judged.
ghost use Rattle.std.specs.Prelude.{◌≡◌, ◌++◌, ◌<◌, length};
ghost use Rattle.hashing.specs.Answers.{first_of};
ghost use Rattle.maps.specs.Promises.{writing_reasons};
ghost use Rattle.maps.specs.Writes.{map_bytes, tag_at, map_body, map_kind, little_bytes, covered, written};

use crate::parts::{BODY, COUNTER_AT, KART_AT, KIND_AT, MAP_AT, TAG_AT, kind};
use crate::tag::tag_of;
use exchange::bytes::copy;

// All that stands before the map: the length 296, the kind, kart number and counter.
fn head(level: u32, kart: u32, counter: u32) -> [u8; MAP_AT]
    requires { level < 256 }
    ensures { result ≡ little_bytes 4 map_body ++ (little_bytes 2 (map_kind level) ++ (little_bytes 4 kart ++ little_bytes 4 counter)) }
{
    let mut out = [0; MAP_AT];
    out[..KIND_AT].copy_from_slice(&(BODY as u32).to_le_bytes());
    out[KIND_AT..KART_AT].copy_from_slice(&kind(level).to_le_bytes());
    out[KART_AT..COUNTER_AT].copy_from_slice(&kart.to_le_bytes());
    out[COUNTER_AT..].copy_from_slice(&counter.to_le_bytes());
    out
}

// What stands before the tag.
fn cover(level: u32, kart: u32, counter: u32, map: &[u8], out: &mut [u8])
    requires { (level < 256) × (length map.now ≡ map_bytes) × (length out.old ≡ tag_at) }
    ensures { out.new ≡ little_bytes 4 map_body ++ covered level kart counter map.now }
{
    let (front, rest) = out.split_at_mut(MAP_AT);
    front.copy_from_slice(&head(level, kart, counter));
    copy(map, rest);
}

pub fn write(level: u32, session_key: &[u8], kart: u32, counter: u32, map: &[u8], bytes: &mut [u8])
    requires { first_of (writing_reasons level session_key.now map.now (length bytes.old)) ≡ 0 }
    ensures { bytes.new ≡ written level session_key.now kart counter map.now }
{
    let (covered, tag) = bytes.split_at_mut(TAG_AT);
    cover(level, kart, counter, map, covered);
    tag.copy_from_slice(&tag_of(session_key, &covered[KIND_AT..]));
}
