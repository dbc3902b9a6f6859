// Key making: two sparse polynomials from a seed, the quotient that is public, and the positions that are kept.
ghost use Rattle.std.specs.Prelude.{◌≡◌, false, ◌++◌, ◌+◌, ◌*◌, ◌≤◌, length, take, IfOk};
ghost use Rattle.hashing.specs.Answers.{first_of};
ghost use Rattle.hashing.specs.Lists.{bits};
ghost use Rattle.hashing.specs.Refusals.{answer};
ghost use Rattle.hashing.specs.Sponge.{shake256};
ghost use Rattle.ring.specs.Levels.{level_of, message_bytes};
ghost use Rattle.ring.specs.Polynomials;
ghost use Rattle.ring.specs.Polynomials.{InRing, weight};
ghost use Rattle.exchange.specs.Promises.{making_reasons, work_reasons, counts_of, counts_given};
ghost use Rattle.ring.specs.Bytes.{bytes_of, numbers};
ghost use Rattle.exchange.specs.Scheme.{key_words, h0_of, h1_of, public_of, private_of, key_ran_out, key_counts, key_digest, two_bytes, private_key_of};

use crate::digest::key_digest;
use crate::fair::MOST_WORDS;
use crate::halves::Pair;
use crate::{bytes, fair, judge};
use hashing::{Refusal, sponge};
use ring::little_endian::four;
use ring::size::TAIL;
use ring::times::times;
use ring::{WORDS, invert, positions, size, words};

// The words of both halves, and their bytes.
const KEY_WORDS: usize = MOST_WORDS + MOST_WORDS;

const STREAM: usize = 4 * KEY_WORDS;

// The stream of the seed's first half.
fn stream(seed: &[u8]) -> [u8; STREAM]
    requires { 32 ≤ length seed.now }
    ensures { result ≡ shake256 (take message_bytes seed.now) (4 * key_words) }
{
    let mut bytes = [0; STREAM];
    sponge::digest(
        sponge::SHAKE256_RATE,
        sponge::SHAKE256_SUFFIX,
        &seed[..32],
        &mut bytes,
    );
    bytes
}

fn words_of(bytes: &[u8]) -> [u32; KEY_WORDS]
    requires { 4 * key_words ≤ length bytes.now }
    ensures { result ≡ numbers 4 key_words bytes.now }
{
    let mut words = [0; KEY_WORDS];
    for i in 0..KEY_WORDS {
        words[i] = four(bytes, 4 * i);
    }
    words
}

// The words that h0 and h1 used, and those of them that each passed over.
#[derive(Clone, Copy, Default)]
pub struct KeyCounts {
    pub used0: u32,
    pub passed0: u32,
    pub used1: u32,
    pub passed1: u32,
}

impl KeyCounts {
    // What key making reports: zeros where it refuses.
    pub fn given(outcome: Result<KeyCounts, Refusal>) -> KeyCounts
        ensures { result ≡ counts_given outcome }
    {
        outcome.unwrap_or_default()
    }
}

// Both halves, what was drawn for them, and whether the words of one ran out.
#[derive(Drop)]
struct KeyHalves {
    words: Pair,
    ran_out: bool,
    counts: KeyCounts,
}

// h0 from the first 512 words at most, h1 from the next 512 after those that h0 used.
fn both_halves(level: u32, seed: &[u8]) -> KeyHalves
    requires { 32 ≤ length seed.now }
    ensures { (bits 64 result.words.half0 ≡ h0_of (level_of level) seed.now)
        × (bits 64 result.words.half1 ≡ h1_of (level_of level) seed.now)
        × (result.ran_out ≡ key_ran_out (level_of level) seed.now)
        × (counts_of result.counts ≡ key_counts (level_of level) seed.now) }
{
    let bytes = stream(seed);
    let words = words_of(&bytes);
    let first = fair::polynomial(level, &words[..MOST_WORDS]);
    let at = first.counts.used as usize;
    let end = at + MOST_WORDS;
    let second = fair::polynomial(level, &words[at..end]);
    let half0 = first.words;
    let half1 = second.words;
    KeyHalves {
        words: Pair { half0, half1 },
        ran_out: first.ran_out | second.ran_out,
        counts: KeyCounts {
            used0: first.counts.used,
            passed0: first.counts.passed,
            used1: second.counts.used,
            passed1: second.counts.passed,
        },
    }
}

// The library's `to_le_bytes` would need the same two stores.
fn write_numbers(list: &[u16], out: &mut [u8])
    requires { length out.old ≡ 2 * length list.now }
    ensures { out.new ≡ two_bytes list.now }
{
    for i in 0..list.len() {
        let p = list[i];
        out[2 * i] = (p % 256) as u8;
        out[2 * i + 1] = (p / 256) as u8;
    }
}

fn write_half(level: u32, h: [u64; WORDS], out: &mut [u8])
    requires fact_1 { length out.old ≡ 2 * (level_of level).d }
    requires fact_2 { InRing (level_of level).r (bits 64 h) }
    requires fact_3 { weight (level_of level).r (bits 64 h) ≡ (level_of level).d }
    ensures { out.new ≡ two_bytes (Polynomials.rising (level_of level).r (bits 64 h)) }
{
    let d = size::key_weight(level);
    let list = positions::rising(size::block(level), h, d);
    write_numbers(&list[..d], out);
}

// A half, then the tail.
fn write_rest(level: u32, h: [u64; WORDS], tail: &[u8], out: &mut [u8])
    requires fact_1 { length out.old ≡ 2 * (level_of level).d + length tail.now }
    requires fact_2 { InRing (level_of level).r (bits 64 h) }
    requires fact_3 { weight (level_of level).r (bits 64 h) ≡ (level_of level).d }
    ensures { out.new ≡ two_bytes (Polynomials.rising (level_of level).r (bits 64 h)) ++ tail.now }
{
    let n = 2 * size::key_weight(level);
    write_half(level, h, &mut out[..n]);
    bytes::copy(tail, &mut out[n..]);
}

// A private key: two halves of weight d, and what follows their positions.
pub fn write_private(level: u32, h: Pair, tail: &[u8], out: &mut [u8])
    requires fact_1 { length out.old ≡ 2 * ((level_of level).d + (level_of level).d) + length tail.now }
    requires fact_2 { InRing (level_of level).r (bits 64 h.half0) × InRing (level_of level).r (bits 64 h.half1) }
    requires fact_3 { (weight (level_of level).r (bits 64 h.half0) ≡ (level_of level).d) × (weight (level_of level).r (bits 64 h.half1) ≡ (level_of level).d) }
    ensures { out.new ≡ private_key_of (level_of level).r (bits 64 h.half0) (bits 64 h.half1) tail.now }
{
    let n = 2 * size::key_weight(level);
    write_half(level, h.half0, &mut out[..n]);
    write_rest(level, h.half1, tail, &mut out[n..]);
}

// What follows the positions: sigma, and the digest of the public key.
fn tail_of(sigma: &[u8], public_key: &[u8]) -> [u8; TAIL]
    requires { length sigma.now ≡ message_bytes }
    ensures { result ≡ sigma.now ++ key_digest public_key.now }
{
    let n = sigma.len();
    let digest = key_digest(public_key);
    let mut tail = [0; TAIL];
    bytes::copy(sigma, &mut tail[..n]);
    bytes::copy(&digest, &mut tail[n..]);
    tail
}

// Both keys. Where no words ran out, h0 has an inverse.
fn write(level: u32, seed: &[u8], h: Pair, public_key: &mut [u8], private_key: &mut [u8])
    requires fact_1 { first_of (making_reasons level seed.now (length public_key.old) (length private_key.old)) ≡ 0 }
    requires fact_2 { key_ran_out (level_of level) seed.now ≡ false }
    requires fact_3 { (bits 64 h.half0 ≡ h0_of (level_of level) seed.now) × (bits 64 h.half1 ≡ h1_of (level_of level) seed.now) }
    ensures { (public_key.new ≡ bytes_of (level_of level).r (public_of (level_of level) seed.now))
        × (private_key.new ≡ private_of (level_of level) seed.now) }
{
    let r = size::block(level);
    let d = size::key_weight(level);
    let inverse = invert::invert_unit(r, h.half0, d);
    words::store(times(r, inverse, h.half1, d), public_key);
    let tail = tail_of(&seed[32..], public_key);
    write_private(level, h, &tail, private_key);
}

// What shows only in the work, and what was drawn for it, which is told after a refusal too.
#[derive(Drop)]
pub struct Made {
    pub answer: Result<(), Refusal>,
    pub counts: KeyCounts,
}

// Key making, once it is judged: the keys where words did not run out.
pub fn make(level: u32, seed: &[u8], public_key: &mut [u8], private_key: &mut [u8]) -> Made
    requires { first_of (making_reasons level seed.now (length public_key.old) (length private_key.old)) ≡ 0 }
    ensures { (answer result.answer ≡ first_of (work_reasons (level_of level) seed.now))
        × (answer result.answer ≡ 0 → (public_key.new ≡ bytes_of (level_of level).r (public_of (level_of level) seed.now))
        × (private_key.new ≡ private_of (level_of level) seed.now))
        × (counts_of result.counts ≡ key_counts (level_of level) seed.now) }
{
    let drawn = both_halves(level, seed);
    let counts = drawn.counts;
    if drawn.ran_out {
        return Made {
            answer: Err(Refusal::WordsRanOut),
            counts,
        };
    }
    write(level, seed, drawn.words, public_key, private_key);
    Made {
        answer: Ok(()),
        counts,
    }
}

// Key making: the keys where nothing is refused.
pub fn judged(
    level: u32,
    seed: &[u8],
    public_key: &mut [u8],
    private_key: &mut [u8],
) -> Result<KeyCounts, Refusal>
    ensures answered { answer result ≡ first_of (making_reasons level seed.now (length public_key.old) (length private_key.old)
        ++ work_reasons (level_of level) seed.now) }
    ensures made { IfOk result (λ counts. (public_key.new ≡ bytes_of (level_of level).r (public_of (level_of level) seed.now))
        × (private_key.new ≡ private_of (level_of level) seed.now)
        × (counts_of counts ≡ key_counts (level_of level) seed.now)) }
{
    judge::making(level, seed, public_key.len(), private_key.len())?;
    let made = make(level, seed, public_key, private_key);
    made.answer?;
    Ok(made.counts)
}
