// Opening: the session key of a ciphertext, from the error that was found in it.
ghost use Rattle.std.specs.Prelude.{◌≡◌, ◌++◌, ◌+◌, ◌≤◌, eqb, length, take, drop};
ghost use Rattle.hashing.specs.Answers.{first_of};
ghost use Rattle.hashing.specs.Lists.{bits};
ghost use Rattle.hashing.specs.Sponge.{sha3_384};
ghost use Rattle.ring.specs.Levels.{level_of, message_bytes, poly_bytes, ciphertext_bytes};
ghost use Rattle.ring.specs.Polynomials.{InRing, add, mul, weight};
ghost use Rattle.exchange.specs.Opening.{either, key_for, opened};
ghost use Rattle.exchange.specs.Promises.{opening_reasons};
ghost use Rattle.exchange.specs.decoder.Decoder.{bgf};
ghost use Rattle.exchange.specs.Scheme.{xor_bytes};
ghost use Rattle.exchange.specs.inner.Working.{key_of, Good};

use crate::decoder::{Key, find, read_key};
use crate::digest::{bound, digest32};
use crate::halves::{Halves, Pair};
use crate::{bytes, error, masks, wrapping};
use ring::sparse::sparse;
use ring::{WORDS, size, words};

// m' = c1 xor L(e')
fn message_of(level: u32, e: Halves<[u8; error::BYTES]>, ciphertext: &[u8]) -> [u8; 32]
    requires fact_1 { length ciphertext.now ≡ ciphertext_bytes (level_of level) }
    requires fact_2 { (poly_bytes (level_of level) ≤ length e.half0) × (poly_bytes (level_of level) ≤ length e.half1) }
    ensures { result ≡ xor_bytes (drop (poly_bytes (level_of level)) ciphertext.now)
        (take message_bytes (sha3_384 (take (poly_bytes (level_of level)) e.half0 ++ take (poly_bytes (level_of level)) e.half1))) }
{
    let n = size::polynomial(level);
    let pad = digest32(&e.half0[..n], &e.half1[..n]);
    let mut m = [0; 32];
    bytes::xor(&ciphertext[n..], &pad, &mut m);
    m
}

// How many bits of two errors differ: both halves are compared in every bit.
fn differences(level: u32, e: Pair, f: Pair) -> usize
    requires fact_1 { InRing (level_of level).r (bits 64 e.half0) × InRing (level_of level).r (bits 64 e.half1) }
    requires fact_2 { InRing (level_of level).r (bits 64 f.half0) × InRing (level_of level).r (bits 64 f.half1) }
    ensures { result ≡ weight (level_of level).r (add (bits 64 e.half0) (bits 64 f.half0)) + weight (level_of level).r (add (bits 64 e.half1) (bits 64 f.half1)) }
{
    let n = size::block(level) / 64 + 1;
    let d0 = words::weight(words::sum(e.half0, f.half0, n), n);
    let d1 = words::weight(words::sum(e.half1, f.half1, n), n);
    d0 + d1
}

// m' where it was the sender's own, so that nothing differs, else sigma.
fn chosen(differences: usize, m: [u8; 32], sigma: &[u8]) -> [u8; 32]
    requires { (differences ≤ 131072) × (length m ≡ message_bytes) × (length sigma.now ≡ message_bytes) }
    ensures { result ≡ either (eqb differences 0) m sigma.now }
{
    let mut out = [0; 32];
    bytes::choose(masks::byte(differences), &m, sigma, &mut out);
    out
}

// The session key that goes with an error: of m' where the error is that of m' tied to the digest, else of sigma.
fn write_session_key(
    level: u32,
    e: Pair,
    sigma: &[u8],
    digest: &[u8],
    ciphertext: &[u8],
    out: &mut [u8],
)
    requires fact_1 { (length sigma.now ≡ message_bytes) × (length ciphertext.now ≡ ciphertext_bytes (level_of level)) × (length out.old ≡ message_bytes) }
    requires fact_2 { InRing (level_of level).r (bits 64 e.half0) }
    requires fact_3 { InRing (level_of level).r (bits 64 e.half1) }
    ensures { out.new ≡ key_for (level_of level) digest.now sigma.now ciphertext.now (record { half0 = bits 64 e.half0; half1 = bits 64 e.half1 }) }
{
    let m = message_of(level, error::stored(level, e), ciphertext);
    let tied = bound(digest, &m);
    let again = error::words_of(level, &tied).words;
    let differing = differences(level, e, again);
    let secret = chosen(differing, m, sigma);
    wrapping::write_key(&secret, ciphertext, out);
}

// The syndrome of a ciphertext: c0·h0.
pub fn syndrome(level: u32, key: Key, c0: [u64; WORDS]) -> [u64; WORDS]
    requires fact_1 { Good (level_of level) key }
    requires fact_2 { InRing (level_of level).r (bits 64 c0) }
    ensures { bits 64 result ≡ mul (level_of level).r (bits 64 c0) (key_of (level_of level) key).half0 }
{
    sparse(size::block(level), &key.half0, size::key_weight(level), c0)
}

// Opening, once it is judged.
pub fn write(level: u32, private_key: &[u8], ciphertext: &[u8], session_key: &mut [u8])
    requires { first_of (opening_reasons level private_key.now ciphertext.now (length session_key.old)) ≡ 0 }
    ensures { session_key.new ≡ opened bgf (level_of level) private_key.now ciphertext.now }
{
    let n = size::polynomial(level);
    let at = 4 * size::key_weight(level);
    let end = at + size::MESSAGE;
    let key = read_key(level, private_key);
    let s = syndrome(level, key, words::load(&ciphertext[..n]));
    let e = find(level, key, s);
    write_session_key(
        level,
        e.error,
        &private_key[at..end],
        &private_key[end..],
        ciphertext,
        session_key,
    );
}
