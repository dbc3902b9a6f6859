// KMAC256 of NIST SP 800-185, for a key, a customization and an output below 8,192 bytes, whose lengths in bits take
// one byte or two.
ghost use Rattle.std.specs.Prelude.{◌≡◌, ◌++◌, ◌-◌, ◌%◌, ◌<◌, length, replicate};
ghost use Rattle.hashing.specs.Kmac.{left_encode, right_encode, encode_string, bytepad, function_name, kmac256};
ghost use Rattle.hashing.specs.inner.Running.{running, Absorbs};

use crate::sponge::{SHAKE256_RATE, Sponge, absorb, finish, squeeze, start};

// cSHAKE's suffix 00 with the padding's first bit, the lowest bit first.
const SUFFIX: u8 = 0x04;

// 2.3.1: left_encode, of a length in bits or of the rate.
fn left(hash: Sponge, x: usize) -> Sponge
    requires { (hash.place < 136) × (x < 65536) }
    ensures { Absorbs 136 hash (left_encode x) result }
{
    if x < 256 {
        return absorb(SHAKE256_RATE, hash, &[1, x as u8]);
    }
    absorb(SHAKE256_RATE, hash, &[2, (x / 256) as u8, (x % 256) as u8])
}

// 2.3.1: right_encode. (One function for both would have to be told the order: no line less.)
fn right(hash: Sponge, x: usize) -> Sponge
    requires { (hash.place < 136) × (x < 65536) }
    ensures { Absorbs 136 hash (right_encode x) result }
{
    if x < 256 {
        return absorb(SHAKE256_RATE, hash, &[x as u8, 1]);
    }
    absorb(SHAKE256_RATE, hash, &[(x / 256) as u8, (x % 256) as u8, 2])
}

// 2.3.2: encode_string.
fn string(hash: Sponge, bytes: &[u8]) -> Sponge
    requires { (hash.place < 136) × (length bytes.now < 8192) }
    ensures { Absorbs 136 hash (encode_string bytes.now) result }
{
    absorb(SHAKE256_RATE, left(hash, 8 * bytes.len()), bytes)
}

// 2.3.3: the zeros with which bytepad ends a block.
fn zeros(hash: Sponge) -> Sponge
    requires { hash.place < 136 }
    ensures { Absorbs 136 hash (replicate ((136 - hash.place) % 136) 0) result }
{
    let place = hash.place;
    if place == 0 {
        return hash;
    }
    let block = [0u8; 136];
    absorb(SHAKE256_RATE, hash, &block[place..])
}

// What comes before the message, in whole blocks: 3.3's name and customization, and 4.3's key.
fn keyed(key: &[u8], custom: &[u8]) -> Sponge
    requires { (length key.now < 8192) × (length custom.now < 8192) }
    ensures { (result.place < 136) × (result ≡ running 136 (bytepad (encode_string function_name ++ encode_string custom.now) 136 ++ bytepad (encode_string key.now) 136)) }
{
    let named = string(string(left(start(), SHAKE256_RATE), b"KMAC"), custom);
    let keyed = string(left(zeros(named), SHAKE256_RATE), key);
    zeros(keyed)
}

// 4.3. The length of the output is hashed too.
pub fn kmac256(key: &[u8], message: &[u8], custom: &[u8], out: &mut [u8])
    requires { (length key.now < 8192) × (length custom.now < 8192) × (length out.old < 8192) }
    ensures { out.new ≡ kmac256 key.now message.now (length out.old) custom.now }
{
    let soaked = absorb(SHAKE256_RATE, keyed(key, custom), message);
    let whole = right(soaked, 8 * out.len());
    squeeze(SHAKE256_RATE, finish(SHAKE256_RATE, SUFFIX, whole), out);
}
