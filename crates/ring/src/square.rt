// k squarings at once: the exponents are multiplied by 2^k modulo r, so with n the inverse of 2^k modulo r, bit j of
// the result is bit n j mod r of x.
ghost use Rattle.std.specs.Prelude.{◌≡◌, ℕ, ◌+◌, ◌-◌, ◌*◌, ◌/◌, ◌%◌, ◌^◌, ◌≤◌, ◌<◌, length, get_or};
ghost use Rattle.hashing.specs.Lists.{tab, bit_at, bits};
ghost use Rattle.ring.specs.inner.Even.{source};
ghost use Rattle.ring.specs.inner.Held.{Held, Taken};
ghost use Rattle.ring.specs.Polynomials.{Poly, InRing, spread};
ghost use Rattle.ring.specs.inner.Sizes.{words, word_bits, window_words};

use crate::even::alternate;
use crate::frame::cut;
use crate::multiply::FACTOR;
use crate::positions::moved;
use crate::size::WORDS;
use crate::sparse::shown;
use crate::unpack::unpacked;
use crate::words::padded;
use hashing::fill::filled;

// A product modulo r.
fn times(r: usize, h: usize, p: usize) -> usize
    requires { (h < r) × (p < r) × (r < word_bits) }
    ensures { result ≡ (h * p) % r }
{
    h * p % r
}

// The inverse of 2^k modulo an odd r, by k's binary digits: p is the inverse of 2^s for the digit of value s.
fn halved(r: usize, k: usize) -> usize
    requires { (r % 2 ≡ 1) × (1 < r) × (r < word_bits) }
    ensures { (result < r) × ((2 ^ k * result) % r ≡ 1) }
{
    let mut h = 1;
    let mut p = (r + 1) / 2;
    let mut j = k;
    // A `for` over the digits would have to count them first.
    while 0 < j {
        if j % 2 == 1 {
            h = times(r, h, p);
        }
        p = times(r, p, p);
        j /= 2;
    }
    h
}

// How far the bits of a word lie, in a circle of r places, from where its lowest bit does.
fn offsets(r: usize, n: usize) -> [usize; 64]
    requires { (n < r) × (r < word_bits) }
    ensures { result ≡ tab 64 (λ e. (n * e) % r) }
{
    let mut o = [0usize; 64];
    let mut at = 0;
    for e in 0..64 {
        o[e] = at;
        at = moved(r, at, n);
    }
    o
}

// w with the bit that lies o[e] places after `base` taken in at its low end, which costs less than to shift it to its
// place. The polynomial is held twice, so no place has to be brought back below r.
fn taken(w: u64, d: &[u8], r: usize, base: usize, o: &[usize], e: usize) -> u64
    requires fact_1 { (base < r) × (r < word_bits) × (r + r ≤ length d.now) × (length o.now ≡ 64) × (e < 64) }
    requires fact_2 { ((k : ℕ) → k < r + r → get_or d.now k 0 < 2) × ((e : ℕ) → e < 64 → get_or o.now e 0 < r) }
    ensures { (a : Poly) → Held r a d.now → Taken (λ e. a ((base + get_or o.now e 0) % r)) (e + 1) w
        → Taken (λ e. a ((base + get_or o.now e 0) % r)) e result }
{
    (w << 1) + d[base + o[e]] as u64
}

// A word whose bit e lies o[e] places after `base`.
fn gather(d: &[u8], r: usize, base: usize, o: &[usize]) -> u64
    requires fact_1 { (base < r) × (r < word_bits) × (r + r ≤ length d.now) × (length o.now ≡ 64) }
    requires fact_2 { ((k : ℕ) → k < r + r → get_or d.now k 0 < 2) × ((e : ℕ) → e < 64 → get_or o.now e 0 < r) }
    ensures { (a : Poly) → Held r a d.now → (e : ℕ) → e < 64 → bit_at result e ≡ a ((base + get_or o.now e 0) % r) }
{
    let mut w: u64 = 0;
    for e in (0..64).rev() {
        w = taken(w, d, r, base, o, e);
    }
    w
}

fn permuted(r: usize, x: [u64; WORDS], n: usize) -> [u64; WORDS]
    requires { (0 < n) × (n < r) × (r < word_bits) }
    ensures fact_1 { InRing (64 * (r / 64 + 1)) (bits 64 result) }
    ensures fact_2 { ((k : ℕ) → k < 64 * (r / 64 + 1) → bits 64 result k ≡ bits 64 x ((n * k) % r)) }
{
    let d = unpacked(r, x);
    let o = offsets(r, n);
    let stride = (64 * n) % r;
    let mut base = 0;
    let mut y: [u64; WORDS] = filled(0);
    for i in 0..r / 64 + 1 {
        y[i] = gather(&d, r, base, &o);
        base = moved(r, base, stride);
    }
    y
}

// The lower halves of two words, spread: bit 2 k is bit k of one, and bit 2 k + 1 that of the other.
fn lower(x: u64, h: u64) -> u64
    ensures { (k : ℕ) → k < 32 → (bit_at result (k + k) ≡ bit_at x k) × (bit_at result (k + k + 1) ≡ bit_at h k) }
{
    alternate(x % 4294967296, h % 4294967296)
}

// And the upper halves.
fn upper(x: u64, h: u64) -> u64
    ensures { (k : ℕ) → k < 32 → (bit_at result (k + k) ≡ bit_at x (k + 32)) × (bit_at result (k + k + 1) ≡ bit_at h (k + 32)) }
{
    alternate(x >> 32, h >> 32)
}

// The lowest 2 n words of a square, before it is cut at r. (Two words a turn, and the loop is vectorised.)
fn pairs(d: &[u64], middle: usize, n: usize) -> [u64; WORDS]
    requires { (2 * n ≤ words) × (n ≤ length d.now) × (middle / 64 + n < length d.now) × (length d.now ≤ window_words) }
    ensures fact_1 { InRing (64 * (2 * n)) (bits 64 result) }
    ensures fact_2 { ((k : ℕ) → k < 64 * (2 * n) → bits 64 result k ≡ bits 64 d.now (source middle k)) }
{
    let mut y: [u64; WORDS] = filled(0);
    for i in 0..n {
        let x = d[i];
        let h = shown(d, middle, i);
        y[2 * i] = lower(x, h);
        y[2 * i + 1] = upper(x, h);
    }
    y
}

// The same to the end of word q.
fn doubled(d: &[u64], middle: usize, q: usize) -> [u64; WORDS]
    requires { (q < words) × (q / 2 < length d.now) × (middle / 64 + q / 2 + 1 < length d.now) × (length d.now ≤ window_words) }
    ensures fact_1 { InRing (64 * (q + 1)) (bits 64 result) }
    ensures fact_2 { ((k : ℕ) → k < 64 * (q + 1) → bits 64 result k ≡ bits 64 d.now (source middle k)) }
{
    let mut y = pairs(d, middle, (q + 1) / 2);
    if q % 2 == 1 {
        return y;
    }
    y[q] = lower(d[q / 2], shown(d, middle, q / 2));
    y
}

// One squaring: bit 2 j of the square is bit j, and bit 2 j + 1 is bit j + (r + 1) / 2.
pub fn once(r: usize, x: [u64; WORDS]) -> [u64; WORDS]
    requires { (r % 2 ≡ 1) × (1 < r) × (r < word_bits) }
    ensures { bits 64 result ≡ spread r 2 (bits 64 x) }
{
    let d: [u64; FACTOR] = padded(&x);
    cut(r, doubled(&d, (r + 1) / 2, r / 64))
}

// k squarings, one after another: for few of them this costs less than to bring each bit to its place.
fn repeated(r: usize, x: [u64; WORDS], k: usize) -> [u64; WORDS]
    requires { (r % 2 ≡ 1) × (1 < r) × (r < word_bits) × (0 < k) }
    ensures { bits 64 result ≡ spread r (2 ^ k) (bits 64 x) }
{
    let mut y = once(r, x);
    for j in 1..k {
        let next = once(r, y);
        y = next;
    }
    y
}

pub fn squared(r: usize, x: [u64; WORDS], k: usize) -> [u64; WORDS]
    requires { (r % 2 ≡ 1) × (1 < r) × (r < word_bits) }
    ensures { bits 64 result ≡ spread r (2 ^ k) (bits 64 x) }
{
    if (0 < k) & (k <= 12) {
        return repeated(r, x, k);
    }
    cut(r, permuted(r, x, halved(r, k)))
}
