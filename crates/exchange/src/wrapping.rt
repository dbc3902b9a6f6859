// Wrapping: the ciphertext of a message under a public key, and the session key.
ghost use Rattle.std.specs.Prelude.{◌≡◌, ◌++◌, length, take};
ghost use Rattle.hashing.specs.Answers.{first_of};
ghost use Rattle.hashing.specs.Lists.{bits};
ghost use Rattle.hashing.specs.Sponge.{sha3_384};
ghost use Rattle.ring.specs.Bytes.{bytes_of};
ghost use Rattle.ring.specs.Levels.{level_of, message_bytes, poly_bytes, ciphertext_bytes};
ghost use Rattle.ring.specs.Polynomials.{InRing, add, mul};
ghost use Rattle.exchange.specs.Promises.{wrapping_reasons};
ghost use Rattle.exchange.specs.Scheme.{key_digest, hash_h, bound_h, hash_k, xor_bytes, wrapped};

use crate::digest::{bound, digest32, key_digest};
use crate::halves::Pair;
use crate::{bytes, error};
use ring::sparse::sparse_upper;
use ring::{WORDS, size, words};

#[derive(Drop)]
struct Addends {
    e: Pair,
    product: [u64; WORDS],
}

// The error of a message, and e1·h. All positions go into the product, those of e0 as empty windows, so that the work
// is the same for every message.
fn addends_of(level: u32, h: [u64; WORDS], message: &[u8]) -> Addends
    requires { InRing (level_of level).r (bits 64 h) }
    ensures { (bits 64 result.e.half0 ≡ (hash_h (level_of level) message.now).half0)
        × (bits 64 result.e.half1 ≡ (hash_h (level_of level) message.now).half1)
        × (bits 64 result.product ≡ mul (level_of level).r (hash_h (level_of level) message.now).half1 (bits 64 h)) }
{
    let t = size::error_weight(level);
    let sampled = error::positions(level, message);
    let e = error::halves(level, &sampled.list[..t]);
    let product = sparse_upper(size::block(level), &sampled.list, t, h);
    Addends { e, product }
}

// The same of a message, tied to the public key.
fn bound_addends(level: u32, h: &[u8], message: &[u8]) -> Addends
    requires fact_1 { length h.now ≡ poly_bytes (level_of level) }
    requires fact_2 { InRing (level_of level).r (bits 8 h.now) }
    ensures { (bits 64 result.e.half0 ≡ (bound_h (level_of level) (key_digest h.now) message.now).half0)
        × (bits 64 result.e.half1 ≡ (bound_h (level_of level) (key_digest h.now) message.now).half1)
        × (bits 64 result.product ≡ mul (level_of level).r (bound_h (level_of level) (key_digest h.now) message.now).half1 (bits 8 h.now)) }
{
    let tied = bound(&key_digest(h), message);
    addends_of(level, words::load(h), &tied)
}

// c0 = e0 + e1·h
fn write_c0(level: u32, e0: [u64; WORDS], product: [u64; WORDS], out: &mut [u8])
    requires fact_1 { length out.old ≡ poly_bytes (level_of level) }
    requires fact_2 { InRing (level_of level).r (bits 64 e0) }
    requires fact_3 { InRing (level_of level).r (bits 64 product) }
    ensures { out.new ≡ bytes_of (level_of level).r (add (bits 64 e0) (bits 64 product)) }
{
    let r = size::block(level);
    words::store(words::sum(e0, product, r / 64 + 1), out);
}

// c1: the message under L
fn write_c1(message: &[u8], e0: &[u8], e1: &[u8], out: &mut [u8])
    requires { (length message.now ≡ message_bytes) × (length out.old ≡ message_bytes) }
    ensures { out.new ≡ xor_bytes message.now (take message_bytes (sha3_384 (e0.now ++ e1.now))) }
{
    let pad = digest32(e0, e1);
    bytes::xor(message, &pad, out);
}

// c0, and c1 in what is left of the buffer.
fn write_ciphertext(level: u32, h: &[u8], message: &[u8], out: &mut [u8])
    requires fact_1 { (length h.now ≡ poly_bytes (level_of level)) × (length message.now ≡ message_bytes)
        × (length out.old ≡ ciphertext_bytes (level_of level)) }
    requires fact_2 { InRing (level_of level).r (bits 8 h.now) }
    ensures { out.new ≡ wrapped (level_of level) (key_digest h.now) (bits 8 h.now) message.now }
{
    let n = size::polynomial(level);
    let a = bound_addends(level, h, message);
    write_c0(level, a.e.half0, a.product, &mut out[..n]);
    let b = error::stored(level, a.e);
    write_c1(message, &b.half0[..n], &b.half1[..n], &mut out[n..]);
}

pub fn write_key(message: &[u8], ciphertext: &[u8], out: &mut [u8])
    requires { length out.old ≡ message_bytes }
    ensures { out.new ≡ hash_k message.now ciphertext.now }
{
    let key = digest32(message, ciphertext);
    bytes::copy(&key, out);
}

// Wrapping, once it is judged.
pub fn write(
    level: u32,
    public_key: &[u8],
    message: &[u8],
    ciphertext: &mut [u8],
    session_key: &mut [u8],
)
    requires { first_of (wrapping_reasons level public_key.now message.now (length ciphertext.old) (length session_key.old)) ≡ 0 }
    ensures { (ciphertext.new ≡ wrapped (level_of level) (key_digest public_key.now) (bits 8 public_key.now) message.now)
        × (session_key.new ≡ hash_k message.now (wrapped (level_of level) (key_digest public_key.now) (bits 8 public_key.now) message.now)) }
{
    write_ciphertext(level, public_key, message, ciphertext);
    write_key(message, ciphertext, session_key);
}
