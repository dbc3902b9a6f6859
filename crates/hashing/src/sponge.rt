// The sponge of FIPS 202, section 4: a hash that takes its message slice by slice and gives its output slice by slice.
// The loops go on locals: a struct or an array by value in each turn would cost four times as much.
ghost use Rattle.std.specs.Prelude.{◌≡◌, ◌≤◌, ◌<◌, length};
ghost use Rattle.hashing.specs.inner.Running.{Starts, Absorbs, Finishes, Squeezes};
ghost use Rattle.hashing.specs.Sponge.{sponge};

use crate::keccak::permute;
use crate::lanes::{at_once, byte_in, lay, part};

// The rates in bytes, and the suffixes with the padding's first bit: 1111 and 1, 01 and 1, the lowest bit first.
pub const SHAKE256_RATE: usize = 136;

pub const SHAKE256_SUFFIX: u8 = 0x1f;

pub const SHA3_384_RATE: usize = 104;

pub const SHA3_384_SUFFIX: u8 = 0x06;

// A running hash: the lanes, and the place of the next byte in the block.
#[derive(Drop)]
pub struct Sponge {
    pub lanes: [u64; 25],
    pub place: usize,
}

pub fn start() -> Sponge
    ensures { Starts result }
{
    Sponge {
        lanes: [0u64; 25],
        place: 0,
    }
}

// A full block is permuted at once, so that the place stays below the rate.
pub fn absorb(rate: usize, hash: Sponge, bytes: &[u8]) -> Sponge
    requires { (hash.place < rate) × (rate ≤ 200) }
    ensures { Absorbs rate hash bytes.now result }
{
    let mut lanes = hash.lanes;
    let mut place = hash.place;
    let mut i = 0;
    // A turn goes on by one byte or by eight, as the block's place has it: no `for` has such steps.
    while i < bytes.len() {
        let n = at_once(place % 8, rate - place, bytes.len() - i);
        lanes[place / 8] = lanes[place / 8] ^ part(bytes, i, n, place % 8);
        place += n;
        if place == rate {
            lanes = permute(lanes);
            place = 0;
        }
        i += n;
    }
    Sponge { lanes, place }
}

// The suffix with the padding's first bit, and the padding's last bit; what lies between adds nothing.
pub fn finish(rate: usize, suffix: u8, hash: Sponge) -> Sponge
    requires { (hash.place < rate) × (rate ≤ 200) × (suffix < 128) }
    ensures { Finishes rate suffix hash result }
{
    let mut lanes = hash.lanes;
    let place = hash.place;
    let last = rate - 1;
    lanes[place / 8] = lanes[place / 8] ^ byte_in(suffix, place % 8);
    lanes[last / 8] = lanes[last / 8] ^ byte_in(128, last % 8);
    Sponge {
        lanes: permute(lanes),
        place: 0,
    }
}

// The next block is made only when a further byte is asked for.
pub fn squeeze(rate: usize, hash: Sponge, out: &mut [u8]) -> Sponge
    requires { (hash.place ≤ rate) × (0 < rate) × (rate ≤ 200) }
    ensures { Squeezes rate hash out.new result }
{
    let mut lanes = hash.lanes;
    let mut place = hash.place;
    let mut i = 0;
    // By one byte or by eight, as in `absorb`.
    while i < out.len() {
        if place == rate {
            lanes = permute(lanes);
            place = 0;
        }
        let n = at_once(place % 8, rate - place, out.len() - i);
        lay(lanes[place / 8], place % 8, n, out, i);
        place += n;
        i += n;
    }
    Sponge { lanes, place }
}

// All of it, for a message in one slice and an output in one slice.
pub fn digest(rate: usize, suffix: u8, message: &[u8], out: &mut [u8])
    requires { (0 < rate) × (rate ≤ 200) × (suffix < 128) }
    ensures { out.new ≡ sponge rate suffix message.now (length out.old) }
{
    let soaked = absorb(rate, start(), message);
    squeeze(rate, finish(rate, suffix, soaked), out);
}
