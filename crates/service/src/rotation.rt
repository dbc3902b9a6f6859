// The halves of a private key, k further round the circle of r places. Nothing is sorted: the positions are put into
// bits, and key making's own writer lists them.
ghost use Rattle.std.specs.Prelude.{◌≡◌, map, ◌+◌, ◌%◌, ◌≤◌, ◌<◌, length, take};
ghost use Rattle.hashing.specs.Answers.{first_of};
ghost use Rattle.hashing.specs.Lists.{bits};
ghost use Rattle.ring.specs.Levels.{level_of};
ghost use Rattle.ring.specs.Polynomials.{InRing, support};
ghost use Rattle.ring.specs.inner.Sizes.{most_d, word_bits};
ghost use Rattle.service.specs.Rotation;
ghost use Rattle.service.specs.Rotation.{rotate_key_reasons};

use exchange::decoder::read_key;
use exchange::error;
use exchange::halves::Halves;
use exchange::keys::write_private;
use hashing::fill::filled;
use ring::positions::moved;
use ring::size::MOST_D;
use ring::{WORDS, size};

// Each position moved on by k, at the front of the list.
fn moved_on(r: usize, k: usize, h: &[u16]) -> [u32; MOST_D]
    requires fact_1 { (k < r) × (r < word_bits) × (length h.now ≤ most_d) }
    requires fact_2 { InRing r (support h.now) }
    ensures { (length result ≡ most_d) × (take (length h.now) result ≡ map (λ p. (p + k) % r) h.now) }
{
    let mut list = [0; MOST_D];
    for (i, &at) in h.iter().enumerate() {
        list[i] = moved(r, at as usize, k) as u32;
    }
    list
}

// X^k times the polynomial of these positions.
fn turned(r: usize, k: usize, h: &[u16]) -> [u64; WORDS]
    requires fact_1 { (k < r) × (r < word_bits) × (length h.now ≤ most_d) }
    requires fact_2 { InRing r (support h.now) }
    ensures { bits 64 result ≡ Rotation.turned r k (support h.now) }
{
    let list = moved_on(r, k, h);
    let mut x: [u64; WORDS] = filled(0);
    error::place(&list[..h.len()], &mut x);
    x
}

// Rotating, once it is judged.
pub fn write(level: u32, k: u32, private_key: &[u8], rotated: &mut [u8])
    requires { first_of (rotate_key_reasons level k private_key.now (length rotated.old)) ≡ 0 }
    ensures { rotated.new ≡ Rotation.rotated (level_of level) k private_key.now }
{
    let r = size::block(level);
    let d = size::key_weight(level);
    let at = 4 * d;
    let key = read_key(level, private_key);
    let half0 = turned(r, k as usize, &key.half0[..d]);
    let half1 = turned(r, k as usize, &key.half1[..d]);
    write_private(level, Halves { half0, half1 }, &private_key[at..], rotated);
}
