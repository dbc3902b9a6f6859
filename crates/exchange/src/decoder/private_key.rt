// The positions of a private key.
ghost use Rattle.std.specs.Prelude.{◌≡◌, ◌&&◌, ◌*◌, ◌≤◌, length, take};
ghost use Rattle.ring.specs.inner.Sizes.{most_d};
ghost use Rattle.ring.specs.Bytes.{numbers};
ghost use Rattle.ring.specs.Levels.{level_of, private_bytes};
ghost use Rattle.exchange.specs.decoder.PrivateKey.{positions0, positions1, rising_from};

use crate::halves::Key;
use ring::little_endian::two;
use ring::size;
use ring::size::MOST_D;

// The d positions at the front of the bytes.
fn half(bytes: &[u8], d: usize) -> [u16; MOST_D]
    requires { (d ≤ most_d) × (2 * d ≤ length bytes.now) }
    ensures { (length result ≡ most_d) × (take d result ≡ numbers 2 d bytes.now) }
{
    let mut h = [0; MOST_D];
    for i in 0..d {
        h[i] = two(bytes, 2 * i) as u16;
    }
    h
}

// The positions of a private key.
pub fn read_key(level: u32, bytes: &[u8]) -> Key
    requires { length bytes.now ≡ private_bytes (level_of level) }
    ensures fact_1 { (length result.half0 ≡ most_d) × (take (level_of level).d result.half0 ≡ positions0 (level_of level) bytes.now) }
    ensures fact_2 { (length result.half1 ≡ most_d) × (take (level_of level).d result.half1 ≡ positions1 (level_of level) bytes.now) }
{
    let d = size::key_weight(level);
    Key {
        half0: half(bytes, d),
        half1: half(&bytes[2 * d..], d),
    }
}

// Whether positions rise and stay below r. All are looked at.
fn rises(r: usize, h: &[u16]) -> bool
    ensures { result ≡ rising_from r 0 h.now }
{
    let mut good = true;
    let mut least = 0;
    for position in h {
        let p = *position as usize;
        good = good & (least <= p) & (p < r);
        least = p + 1;
    }
    good
}

pub fn is_good(level: u32, key: Key) -> bool
    requires { (length key.half0 ≡ most_d) × (length key.half1 ≡ most_d) }
    ensures { result ≡ rising_from (level_of level).r 0 (take (level_of level).d key.half0) && rising_from (level_of level).r 0 (take (level_of level).d key.half1) }
{
    let r = size::block(level);
    let d = size::key_weight(level);
    rises(r, &key.half0[..d]) & rises(r, &key.half1[..d])
}
