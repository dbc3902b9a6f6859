// The product of a dense polynomial by a sparse one: x X^p is x turned by p places. x is held twice in a row, so that
// each turned x is a window of that, and the windows are added word by word, eight in a pass. Behind the two an empty
// window adds nothing.
ghost use Rattle.std.specs.Prelude.{◌≡◌, false, [], ◌∷◌, ℕ, ◌+◌, ◌-◌, ◌*◌, ◌/◌, ◌%◌, ◌≤◌, ◌<◌, length, get_or, replicate, take};
ghost use Rattle.hashing.specs.Lists.{tab, bit_at, bits};
ghost use Rattle.ring.specs.Polynomials.{Poly, InRing, flip, parity, terms, mul};
ghost use Rattle.ring.specs.inner.Sizes.{words, word_bits, most_t, most_starts, empty_window, window_words};
ghost use Rattle.ring.specs.inner.Upper.{upper};
ghost use Rattle.ring.specs.inner.Windows.{Start, window, UpperStart};

use crate::frame::cut;
use crate::size::{MOST_T, WORDS};
use crate::words::padded;
use hashing::fill::filled;

// Where the empty window starts, and room for all: a polynomial twice, and one word more than a polynomial has.
const EMPTY: usize = 64 * 2 * WORDS;

const WINDOWED: usize = 3 * WORDS + 1;

// Room for the starts of windows, in passes of eight.
const STARTS: usize = 8 * ((MOST_T + 7) / 8);

// The 64 bits from bit s on of two words in a row. (No shift is by 64, s = 0 included.)
pub fn join(low: u64, high: u64, s: usize) -> u64
    requires { s < 64 }
    ensures { (e : ℕ) → e < 64 → bit_at result e ≡ bits 64 (low ∷ high ∷ []) (s + e) }
{
    (low >> s) | ((high << 1) << (63 - s))
}

// Each word after that of r is what stands r places before it, as far as the second copy goes.
fn extend(d: &mut [u64], r: usize)
    requires { (64 ≤ r) × (r < word_bits) × (length d.old ≡ window_words) }
    ensures fact_1 { ((a : Poly) → ((k : ℕ) → k < 64 * (r / 64 + 1) → bits 64 d.old k ≡ a (k % r))
        → (k : ℕ) → k < 64 * (2 * (r / 64) + 2) → bits 64 d.new k ≡ a (k % r)) }
    ensures fact_2 { ((k : ℕ) → empty_window ≤ k → bits 64 d.new k ≡ bits 64 d.old k) }
{
    for j in r / 64 + 1..2 * (r / 64) + 2 {
        let from = 64 * j - r;
        d[j] = join(d[from / 64], d[from / 64 + 1], from % 64);
    }
}

fn twice(r: usize, x: [u64; WORDS]) -> [u64; WINDOWED]
    requires fact_1 { (64 ≤ r) × (r < word_bits) }
    requires fact_2 { InRing r (bits 64 x) }
    ensures fact_1 { ((k : ℕ) → k < r + r → bits 64 result k ≡ bits 64 x (k % r)) }
    ensures fact_2 { InRing empty_window (bits 64 result) }
{
    let mut d: [u64; WINDOWED] = padded(&x[..r / 64 + 1]);
    d[r / 64] = d[r / 64] ^ (d[0] << (r % 64));
    extend(&mut d, r);
    d
}

// Word i of the window of d that starts at bit `from`.
pub fn shown(d: &[u64], from: usize, i: usize) -> u64
    requires { (from / 64 + i + 1 < length d.now) × (length d.now ≤ window_words) }
    ensures { (e : ℕ) → e < 64 → bit_at result e ≡ bits 64 d.now (from + (64 * i + e)) }
{
    let at = from / 64 + i;
    join(d[at], d[at + 1], from % 64)
}

// The sum of word i of eight windows.
fn eight(d: &[u64], from: [usize; 8], i: usize) -> u64
    requires { ((m : ℕ) → m < 8 → get_or from m 0 / 64 + i + 1 < length d.now) × (length d.now ≡ window_words) }
    ensures { (e : ℕ) → e < 64 → bit_at result e ≡ parity 8 (λ m. bits 64 d.now (get_or from m 0 + (64 * i + e))) }
{
    shown(d, from[0], i)
        ^ shown(d, from[1], i)
        ^ shown(d, from[2], i)
        ^ shown(d, from[3], i)
        ^ shown(d, from[4], i)
        ^ shown(d, from[5], i)
        ^ shown(d, from[6], i)
        ^ shown(d, from[7], i)
}

// Adds eight windows of d to the n lowest words of y.
fn add_windows(y: &mut [u64], d: &[u64], from: [usize; 8], n: usize)
    requires { (n ≤ length y.old) × ((m : ℕ) → m < 8 → get_or from m 0 / 64 + n < length d.now) × (length d.now ≡ window_words) }
    ensures fact_1 { ((k : ℕ) → k < 64 * n → bits 64 y.new k
        ≡ flip (bits 64 y.old k) (parity 8 (λ m. bits 64 d.now (get_or from m 0 + k)))) }
    ensures fact_2 { ((k : ℕ) → 64 * n ≤ k → bits 64 y.new k ≡ bits 64 y.old k) }
{
    for i in 0..n {
        y[i] = y[i] ^ eight(d, from, i);
    }
}

// Eight starts, from place j on.
fn next_eight(from: &[usize], j: usize) -> [usize; 8]
    requires { (j + 8 ≤ length from.now) × (length from.now ≡ most_starts) }
    ensures { result ≡ tab 8 (λ m. get_or from.now (j + m) 0) }
{
    let mut o = [0usize; 8];
    for m in 0..8 {
        o[m] = from[j + m];
    }
    o
}

// The sum of the windows that start at the first `count` of `from`; those of the rest are empty.
fn windows(r: usize, x: [u64; WORDS], from: &[usize], count: usize) -> [u64; WORDS]
    requires fact_1 { (64 ≤ r) × (r < word_bits) × (count ≤ most_t) × (length from.now ≡ most_starts) }
    requires fact_2 { InRing r (bits 64 x) }
    requires fact_3 { ((i : ℕ) → i < count → Start r (get_or from.now i 0)) × ((i : ℕ) → count ≤ i → i < most_starts → get_or from.now i 0 ≡ empty_window) }
    ensures fact_1 { InRing r (bits 64 result) }
    ensures fact_2 { ((k : ℕ) → k < r → bits 64 result k ≡ parity count (λ i. window r (bits 64 x) (get_or from.now i 0) k)) }
{
    let d = twice(r, x);
    let mut y: [u64; WORDS] = filled(0);
    for pass in 0..(count + 7) / 8 {
        add_windows(&mut y, &d, next_eight(from, 8 * pass), r / 64 + 1);
    }
    cut(r, y)
}

// Where the windows start: those at places below `count` as the rule has it.
fn starts<F: Fn(usize) -> usize>(count: usize, rule: F) -> [usize; STARTS]
    requires fact_1 { count ≤ most_t }
    requires fact_2 { (i : ℕ) → i < count → F.pre rule i }
    ensures fact_1 { (i : ℕ) → i < count → F.post rule i (get_or result i 0) }
    ensures fact_2 { (i : ℕ) → count ≤ i → i < most_starts → get_or result i 0 ≡ empty_window }
{
    let mut from: [usize; STARTS] = filled(EMPTY);
    for i in 0..count {
        from[i] = rule(i);
    }
    from
}

pub fn sparse(r: usize, positions: &[u16], count: usize, x: [u64; WORDS]) -> [u64; WORDS]
    requires fact_1 { (64 ≤ r) × (r < word_bits) × (count ≤ length positions.now) × (count ≤ most_t) }
    requires fact_2 { InRing r (bits 64 x) }
    requires fact_3 { ((i : ℕ) → i < count → get_or positions.now i 0 < r) }
    ensures { bits 64 result ≡ mul r (terms r (take count positions.now)) (bits 64 x) }
{
    let from = starts(count, |i| r - positions[i] as usize);
    windows(r, x, &from, count)
}

// Where the window of a position starts: one from r on stands for the exponent p - r, another has the empty window.
// By arithmetic, with no branch.
fn upper_start(r: usize, p: usize) -> usize
    requires { (r < word_bits) × (p < r + r) }
    ensures { UpperStart r p result }
{
    let up = (r <= p) as usize;
    EMPTY - up * (EMPTY + p - 2 * r)
}

// The product by the upper half of positions below 2r, in the same work however many of them lie there.
pub fn sparse_upper(r: usize, positions: &[u32], count: usize, x: [u64; WORDS]) -> [u64; WORDS]
    requires fact_1 { (64 ≤ r) × (r < word_bits) × (count ≤ length positions.now) × (count ≤ most_t) }
    requires fact_2 { InRing r (bits 64 x) }
    requires fact_3 { ((i : ℕ) → i < count → get_or positions.now i 0 < r + r) }
    ensures { bits 64 result ≡ mul r (terms r (upper r (take count positions.now))) (bits 64 x) }
{
    let from = starts(count, |i| upper_start(r, positions[i] as usize));
    windows(r, x, &from, count)
}
