// H: the error of a message, as the two halves that wrapping sends and opening looks for. No branch depends on a
// position.
ghost use Rattle.std.specs.Prelude.{◌≡◌, true, ◌&&◌, ◌||◌, ℕ, ◌+◌, ◌*◌, ◌%◌, ◌<◌, eqb, ltb, length, take, replicate};
ghost use Rattle.hashing.specs.Lists.{bits};
ghost use Rattle.hashing.specs.Sponge.{shake256};
ghost use Rattle.ring.specs.Bytes.{bytes_of};
ghost use Rattle.ring.specs.Levels.{level_of, poly_bytes};
ghost use Rattle.ring.specs.Polynomials.{listed};
ghost use Rattle.ring.specs.inner.Sizes.{word_bits};
ghost use Rattle.exchange.specs.Scheme;
ghost use Rattle.exchange.specs.Scheme.{error_positions, error_replaced, hash_h};

use crate::halves::{Halves, Pair};
use crate::sampler;
use hashing::fill::filled;
use hashing::sponge;
use ring::frame::cut;
use ring::multiply::{WIDE, reduce};
use ring::size::{MOST_T, WORDS};
use ring::{size, words};

const STREAM: usize = 4 * MOST_T;

// The bytes of a half of the largest level.
pub const BYTES: usize = 8 * WORDS;

// The stream of the message: 4t bytes.
fn stream(level: u32, message: &[u8]) -> [u8; STREAM]
    ensures { take (4 * (level_of level).t) result ≡ shake256 message.now (4 * (level_of level).t) }
{
    let n = 4 * size::error_weight(level);
    let mut words = [0; STREAM];
    sponge::digest(
        sponge::SHAKE256_RATE,
        sponge::SHAKE256_SUFFIX,
        message,
        &mut words[..n],
    );
    words
}

#[derive(Drop)]
pub struct ErrorPositions {
    pub list: [u32; MOST_T],
    pub replaced: u32,
}

// The t positions of the error, at the front of the list, and how many of them were replaced.
pub fn positions(level: u32, message: &[u8]) -> ErrorPositions
    ensures { (take (level_of level).t result.list ≡ error_positions (level_of level) message.now)
        × (result.replaced ≡ error_replaced (level_of level) message.now) }
{
    let t = size::error_weight(level);
    let n = 4 * t;
    let len = 2 * (size::block(level) as u32);
    let words = stream(level, message);
    let mut list = [0; MOST_T];
    let replaced = sampler::sample(len, &words[..n], &mut list[..t]);
    ErrorPositions { list, replaced }
}

// Sets the bit of a position.
fn put(position: u32, out: &mut [u64])
    requires { position < 64 * length out.old }
    ensures { bits 64 out.new ≡ (λ k. bits 64 out.old k || eqb k position) }
{
    let i = (position / 64) as usize;
    out[i] = out[i] | (1 << (position % 64));
}

// The bits of the positions that are listed, in words that are 0.
pub fn place(list: &[u32], out: &mut [u64])
    requires fact_1 { out.old ≡ replicate (length out.old) 0 }
    requires fact_2 { ((p : ℕ) → listed p list.now ≡ true → p < 64 * length out.old) }
    ensures { bits 64 out.new ≡ (λ k. listed k list.now) }
{
    for i in 0..list.len() {
        put(list[i], out);
    }
}

// The first r bits are one half's and the next r are the other's. With X^r = 1 they all come to the sum of both, and
// that and the first half are the second.
fn split(r: usize, all: [u64; WIDE]) -> Pair
    requires { (r % 2 ≡ 1) × (r < word_bits) }
    ensures { (bits 64 result.half0 ≡ (λ k. ltb k r && bits 64 all k)) × (bits 64 result.half1 ≡ (λ k. ltb k r && bits 64 all (r + k))) }
{
    let n = r / 64 + 1;
    let mut front: [u64; WORDS] = filled(0);
    words::place(&mut front, &all[..n], 0);
    let half0 = cut(r, front);
    let half1 = words::sum(reduce(all, r), half0, n);
    Halves { half0, half1 }
}

// The two halves of the positions that are listed.
pub fn halves(level: u32, list: &[u32]) -> Pair
    requires { (p : ℕ) → listed p list.now ≡ true → p < 2 * (level_of level).r }
    ensures { (bits 64 result.half0 ≡ (Scheme.split (level_of level).r list.now).half0)
        × (bits 64 result.half1 ≡ (Scheme.split (level_of level).r list.now).half1) }
{
    let mut all: [u64; WIDE] = filled(0);
    place(list, &mut all);
    split(size::block(level), all)
}

#[derive(Drop)]
pub struct Hashed {
    pub words: Pair,
    pub replaced: u32,
}

// H in words, and how many positions were replaced.
pub fn words_of(level: u32, message: &[u8]) -> Hashed
    ensures { (bits 64 result.words.half0 ≡ (hash_h (level_of level) message.now).half0)
        × (bits 64 result.words.half1 ≡ (hash_h (level_of level) message.now).half1)
        × (result.replaced ≡ error_replaced (level_of level) message.now) }
{
    let t = size::error_weight(level);
    let sampled = positions(level, message);
    Hashed {
        words: halves(level, &sampled.list[..t]),
        replaced: sampled.replaced,
    }
}

// H for buffers of the level's length: how many positions were replaced.
pub fn hash_h(level: u32, message: &[u8], e0: &mut [u8], e1: &mut [u8]) -> u32
    requires { (length e0.old ≡ poly_bytes (level_of level)) × (length e1.old ≡ poly_bytes (level_of level)) }
    ensures { (e0.new ≡ bytes_of (level_of level).r (hash_h (level_of level) message.now).half0)
        × (e1.new ≡ bytes_of (level_of level).r (hash_h (level_of level) message.now).half1)
        × (result ≡ error_replaced (level_of level) message.now) }
{
    let e = words_of(level, message);
    words::store(e.words.half0, e0);
    words::store(e.words.half1, e1);
    e.replaced
}

// An error's bytes, each half at the front of its array.
pub fn stored(level: u32, e: Pair) -> Halves<[u8; BYTES]>
    ensures { (take (poly_bytes (level_of level)) result.half0 ≡ bytes_of (level_of level).r (bits 64 e.half0))
        × (take (poly_bytes (level_of level)) result.half1 ≡ bytes_of (level_of level).r (bits 64 e.half1)) }
{
    let n = size::polynomial(level);
    let mut half0 = [0; BYTES];
    let mut half1 = [0; BYTES];
    words::store(e.half0, &mut half0[..n]);
    words::store(e.half1, &mut half1[..n]);
    Halves { half0, half1 }
}
