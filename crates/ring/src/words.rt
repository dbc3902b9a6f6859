// Polynomials in words of 64 bits: coefficient i is bit i mod 64 of word i div 64.
ghost use Rattle.std.specs.Prelude.{◌≡◌, [], ◌∷◌, ◌++◌, ℕ, ◌+◌, ◌-◌, ◌*◌, ◌/◌, ◌≤◌, ◌<◌, length, get_or, drop};
ghost use Rattle.hashing.specs.Lists.{bit_at, bits};
ghost use Rattle.ring.specs.Bytes.{list_of};
ghost use Rattle.ring.specs.Polynomials.{InRing, add};
ghost use Rattle.ring.specs.Polynomials;
ghost use Rattle.ring.specs.inner.Wide.{Outside};
ghost use Rattle.ring.specs.inner.Sizes.{words, word_bytes};

use crate::size::WORDS;
use hashing::fill::filled;
use hashing::lanes::{byte_of, eight_bytes, lay_eight};

// Word i, and 0 past the end.
pub fn word(x: &[u64], i: usize) -> u64
    ensures { result ≡ get_or x.now i 0 }
{
    x.get(i).copied().unwrap_or(0)
}

// The 64 bits that start s below the upper of two words in a row.
pub fn funnel(low: u64, high: u64, s: u64) -> u64
    requires { (0 < s) × (s < 64) }
    ensures { (e : ℕ) → e < 64 → bit_at result e ≡ bits 64 (low ∷ high ∷ []) (64 - s + e) }
{
    (high << s) | (low >> (64 - s))
}

// b, from word `at` on.
pub fn place(t: &mut [u64], b: &[u64], at: usize)
    requires { at + length b.now ≤ length t.old }
    ensures outside { Outside at (length b.now) t.old t.new }
    ensures by_index { (i : ℕ) → i < length b.now → get_or t.new (at + i) 0 ≡ get_or b.now i 0 }
{
    // The library's `copy_from_slice` would be a call of memmove, which no C caller has to bring.
    for i in 0..b.len() {
        t[at + i] = b[i];
    }
}

// b, with words of 0 behind it.
pub fn padded<const N: usize>(b: &[u64]) -> [u64; N]
    requires { length b.now ≤ N }
    ensures { bits 64 result ≡ bits 64 b.now }
{
    let mut p: [u64; N] = filled(0);
    place(&mut p, b, 0);
    p
}

// The sum of two polynomials of n words.
pub fn sum(a: [u64; WORDS], b: [u64; WORDS], n: usize) -> [u64; WORDS]
    requires { (n ≤ words) × InRing (64 * n) (bits 64 a) × InRing (64 * n) (bits 64 b) }
    ensures { bits 64 result ≡ add (bits 64 a) (bits 64 b) }
{
    let mut c: [u64; WORDS] = filled(0);
    for i in 0..n {
        c[i] = a[i] ^ b[i];
    }
    c
}

// The number of ones in the first n words.
pub fn weight(a: [u64; WORDS], n: usize) -> usize
    requires { n ≤ words }
    ensures { result ≡ Polynomials.weight (64 * n) (bits 64 a) }
{
    let mut ones = 0;
    for i in 0..n {
        ones += u64::count_ones(a[i]) as usize;
    }
    ones
}

// Byte i, and 0 past the end: a line each, so that one function over both types would say no less.
fn byte(b: &[u8], i: usize) -> u8
    ensures { result ≡ get_or b.now i 0 }
{
    b.get(i).copied().unwrap_or(0)
}

// The eight bytes from `at` on, the first one lowest, and 0 past the end.
fn end_word(b: &[u8], at: usize) -> u64
    requires { at < word_bytes }
    ensures { (e : ℕ) → e < 64 → bit_at result e ≡ bits 8 b.now (8 * at + e) }
{
    let mut w = 0;
    for m in (0..8).rev() {
        w = (w << 8) | byte(b, at + m) as u64;
    }
    w
}

// The same, at once where eight are left.
fn word_of(b: &[u8], at: usize) -> u64
    requires { at < word_bytes }
    ensures { (e : ℕ) → e < 64 → bit_at result e ≡ bits 8 b.now (8 * at + e) }
{
    if at + 8 <= b.len() {
        return eight_bytes(b, at);
    }
    end_word(b, at)
}

// A polynomial from its bytes.
pub fn load(bytes: &[u8]) -> [u64; WORDS]
    requires { length bytes.now ≤ word_bytes }
    ensures { bits 64 result ≡ bits 8 bytes.now }
{
    let n = (bytes.len() + 7) / 8;
    let mut a: [u64; WORDS] = filled(0);
    for i in 0..n {
        a[i] = word_of(bytes, 8 * i);
    }
    a
}

// The bytes of whole words, as far as `out` has room for eight.
fn store_words(a: &[u64], out: &mut [u8])
    requires { (length out.old ≤ word_bytes) × (length a.now ≡ words) }
    ensures { out.new ≡ list_of 8 (8 * (length out.old / 8)) (bits 64 a.now)
        ++ drop (8 * (length out.old / 8)) out.old }
{
    let n = out.len() / 8;
    for i in 0..n {
        lay_eight(a[i], out, 8 * i);
    }
}

// A polynomial's bytes, as many as `out` holds.
pub fn store(a: [u64; WORDS], out: &mut [u8])
    requires { length out.old ≤ word_bytes }
    ensures { out.new ≡ list_of 8 (length out.old) (bits 64 a) }
{
    store_words(&a, out);
    for i in 8 * (out.len() / 8)..out.len() {
        out[i] = byte_of(a[i / 8], i % 8);
    }
}
