// A polynomial with one byte to a bit, twice in a row: a loop over its bits then needs no shift, and a step within it
// no wrap.
ghost use Rattle.std.specs.Prelude.{◌≡◌, ◌⊎◌, ℕ, ◌+◌, ◌*◌, ◌/◌, ◌%◌, ◌^◌, ◌≤◌, ◌<◌, length, get_or};
ghost use Rattle.std.proofs.lemmas.List.Edits.{sets};
ghost use Rattle.hashing.specs.Lists.{tab, bit_at, bits};
ghost use Rattle.ring.specs.inner.Held.{Held};
ghost use Rattle.ring.specs.Polynomials.{bit};
ghost use Rattle.ring.specs.inner.Sizes.{words, word_bits};

use crate::size::WORDS;
use hashing::fill::filled;

// Bytes for the bits of a polynomial of the largest level, twice.
pub const TWICE_BITS: usize = 2 * 64 * WORDS;

// The digits of a byte, each in a byte of its own: of seven copies of the low seven digits, seven places apart, copy m
// has digit m at place 8 m. The copies do not overlap.
fn digits(b: u64) -> u64
    requires { b < 256 }
    ensures { (m : ℕ) → m < 8 → result / 2 ^ (8 * m) % 256 ≡ bit (bit_at b m) }
{
    (((b % 128) * 0x40810204081) & 0x1010101010101) | ((b / 128) << 56)
}

// The bytes of a word, the lowest first. (Written out, the eight stores become one; `lay_eight` costs more here.)
fn put(out: &mut [u8], at: usize, v: u64)
    requires { at + 8 ≤ length out.old }
    ensures { out.new ≡ sets out.old at (tab 8 (λ m. v / 2 ^ (8 * m) % 256)) }
{
    out[at] = (v % 256) as u8;
    out[at + 1] = ((v >> 8) % 256) as u8;
    out[at + 2] = ((v >> 16) % 256) as u8;
    out[at + 3] = ((v >> 24) % 256) as u8;
    out[at + 4] = ((v >> 32) % 256) as u8;
    out[at + 5] = ((v >> 40) % 256) as u8;
    out[at + 6] = ((v >> 48) % 256) as u8;
    out[at + 7] = ((v >> 56) % 256) as u8;
}

// The bits of a word.
fn lay_word(out: &mut [u8], at: usize, w: u64)
    requires { (at + 64 ≤ length out.old) × (at < 2 ^ 32) }
    ensures by_index { (k : ℕ) → k < 64 → get_or out.new (at + k) 0 ≡ bit (bit_at w k) }
    ensures by_index_2 { (k : ℕ) → (k < at) ⊎ (at + 64 ≤ k) → get_or out.new k 0 ≡ get_or out.old k 0 }
{
    for j in 0..8 {
        let b = (w >> (8 * j)) % 256;
        put(out, at + 8 * j, digits(b));
    }
}

// The bits of the n lowest words of x.
fn lay(x: &[u64], n: usize, out: &mut [u8])
    requires { (n ≤ length x.now) × (64 * n ≤ length out.old) × (n ≤ words) }
    ensures by_index { (k : ℕ) → k < 64 * n → get_or out.new k 0 ≡ bit (bits 64 x.now k) }
    ensures by_index_2 { (k : ℕ) → 64 * n ≤ k → get_or out.new k 0 ≡ get_or out.old k 0 }
{
    for i in 0..n {
        lay_word(out, 64 * i, x[i]);
    }
}

// The first r bytes once more, behind themselves.
fn repeat(out: &mut [u8], r: usize)
    requires { 2 * r ≤ length out.old }
    ensures by_index { (k : ℕ) → k < r → get_or out.new (r + k) 0 ≡ get_or out.old k 0 }
    ensures by_index_2 { (k : ℕ) → (k < r) ⊎ (2 * r ≤ k) → get_or out.new k 0 ≡ get_or out.old k 0 }
{
    out.copy_within(..r, r);
}

pub fn unpacked(r: usize, x: [u64; WORDS]) -> [u8; TWICE_BITS]
    requires { r < word_bits }
    ensures { Held r (bits 64 x) result }
{
    let mut d: [u8; TWICE_BITS] = filled(0);
    lay(&x, r / 64 + 1, &mut d);
    repeat(&mut d, r);
    d
}
