// Black-Gray-Flip: from a syndrome and a private key the error, in five rounds that always run.
ghost use Rattle.std.specs.Prelude.{◌≡◌, ◌&&◌, ℕ, ◌+◌, ◌-◌, ◌*◌, ◌≤◌, ◌<◌, ltb, leb, length, get_or};
ghost use Rattle.hashing.specs.Lists.{bits};
ghost use Rattle.ring.specs.inner.Sizes.{words, word_bits, most_d};
ghost use Rattle.ring.specs.Levels.{level_of};
ghost use Rattle.ring.specs.Polynomials.{InRing, bit};
ghost use Rattle.ring.specs.Polynomials;
ghost use Rattle.exchange.specs.decoder.Decoder;
ghost use Rattle.exchange.specs.inner.ByteRows.{row_at};
ghost use Rattle.exchange.specs.inner.Counting.{total};
ghost use Rattle.exchange.specs.inner.Working;
ghost use Rattle.exchange.specs.inner.Working.{key_of, Good, pair_of, Inside, Carried};

use crate::decoder::halves::{among, flipped, nothing, without};
use crate::decoder::planes;
use crate::decoder::rows::{Rows, add_product};
use crate::halves::{Key, Pair};
use crate::masks;
use hashing::fill::filled;
use ring::frame::cut;
use ring::level::{divided, level_of};
use ring::{WORDS, size, words};

pub const ROUNDS: usize = 5;

// What a round leaves: an error and its residual.
#[derive(Drop)]
pub struct State {
    pub x: [u64; WORDS],
    pub e: Pair,
}

// What reaches each of two bounds, in one half or in both.
#[derive(Drop)]
struct Marked<T> {
    high: T,
    low: T,
}

// The residual of an error, anew from the syndrome. The rows of both halves are made in `rows`.
fn residual(level: u32, key: Key, s: [u64; WORDS], e: Pair, rows: &mut Rows) -> [u64; WORDS]
    requires fact_1 { Good (level_of level) key }
    requires fact_2 { InRing (level_of level).r (bits 64 s) × Inside (level_of level) e }
    ensures { bits 64 result ≡ Decoder.residual (level_of level).r (key_of (level_of level) key) (bits 64 s) (pair_of e) }
{
    let r = size::block(level);
    let d = size::key_weight(level);
    let n = 8 * (r / 64 + 1);
    let mut z = filled(0);
    words::store(s, &mut z[..n]);
    add_product(r, &key.half0, d, e.half0, rows, &mut z);
    add_product(r, &key.half1, d, e.half1, rows, &mut z);
    cut(r, words::load(&z[..n]))
}

// An error with its residual.
fn turned(level: u32, key: Key, s: [u64; WORDS], e: Pair, rows: &mut Rows) -> State
    requires fact_1 { Good (level_of level) key }
    requires fact_2 { InRing (level_of level).r (bits 64 s) × Inside (level_of level) e }
    ensures { Carried (level_of level) (key_of (level_of level) key) (bits 64 s) result × (pair_of result.e ≡ pair_of e) }
{
    State {
        x: residual(level, key, s, e, rows),
        e,
    }
}

// The bits of one half that reach each of two bounds, from the same counters.
fn half_marks(
    r: usize,
    positions: &[u16],
    d: usize,
    rows: &Rows,
    high: u16,
    low: u16,
) -> Marked<[u64; WORDS]>
    requires fact_1 { (r < word_bits) × (d ≤ length positions.now) × (d ≤ most_d) }
    requires fact_2 { ((i : ℕ) → i < d → get_or positions.now i 0 < r) }
    requires fact_3 { (high < 256) × (low < 256) }
    ensures { (bits 64 result.high ≡ (λ j. ltb j r && leb high (total d (λ i. bit (bits 8 rows.now.bytes (8 * row_at (get_or positions.now i 0) + j))))))
        × (bits 64 result.low ≡ (λ j. ltb j r && leb low (total d (λ i. bit (bits 8 rows.now.bytes (8 * row_at (get_or positions.now i 0) + j)))))) }
{
    let p = planes::counters(r, positions, d, rows);
    Marked {
        high: planes::reaching(r, &p, high),
        low: planes::reaching(r, &p, low),
    }
}

// The bits of both halves that reach each of two bounds in a residual, whose rows are made in `rows`.
fn marks(
    level: u32,
    key: Key,
    x: [u64; WORDS],
    bound: u16,
    other: u16,
    rows: &mut Rows,
) -> Marked<Pair>
    requires fact_1 { Good (level_of level) key }
    requires fact_2 { InRing (level_of level).r (bits 64 x) }
    requires fact_3 { (bound < 256) × (other < 256) }
    ensures { (pair_of result.high ≡ Decoder.reaching (level_of level).r (key_of (level_of level) key) (bits 64 x) bound)
        × (pair_of result.low ≡ Decoder.reaching (level_of level).r (key_of (level_of level) key) (bits 64 x) other) }
{
    let r = size::block(level);
    let d = size::key_weight(level);
    rows.set(r, x);
    let Marked {
        high: high0,
        low: low0,
    } = half_marks(r, &key.half0, d, rows, bound, other);
    let Marked {
        high: high1,
        low: low1,
    } = half_marks(r, &key.half1, d, rows, bound, other);
    Marked {
        high: Pair {
            half0: high0,
            half1: high1,
        },
        low: Pair {
            half0: low0,
            half1: low1,
        },
    }
}

// The threshold of a residual of weight s.
fn threshold(level: u32, s: usize) -> u16
    requires { s ≤ (level_of level).r }
    ensures { (result ≡ Decoder.threshold (level_of level) s) × (result < 256) }
{
    let l = level_of(level);
    divided(level, l.slope * s + l.offset).max(l.least) as u16
}

// The weight of a residual.
pub fn ones(level: u32, x: [u64; WORDS]) -> usize
    requires { InRing (level_of level).r (bits 64 x) }
    ensures { result ≡ Polynomials.weight (level_of level).r (bits 64 x) }
{
    words::weight(x, size::block(level) / 64 + 1)
}

// The bound of a round from the residual at its start.
fn bound_of(level: u32, x: [u64; WORDS]) -> u16
    requires { InRing (level_of level).r (bits 64 x) }
    ensures { (result ≡ Decoder.threshold (level_of level) (Polynomials.weight (level_of level).r (bits 64 x))) × (result < 256) }
{
    threshold(level, ones(level, x))
}

// Flips those of the marked bits that still reach the masked bound.
fn masked_step(
    level: u32,
    key: Key,
    s: [u64; WORDS],
    marked: Pair,
    st: State,
    rows: &mut Rows,
) -> State
    requires fact_1 { Good (level_of level) key }
    requires fact_2 { InRing (level_of level).r (bits 64 s) × Carried (level_of level) (key_of (level_of level) key) (bits 64 s) st }
    ensures { Carried (level_of level) (key_of (level_of level) key) (bits 64 s) result
        × (pair_of result.e ≡ Decoder.masked_step (level_of level) (key_of (level_of level) key) (bits 64 s) (pair_of marked) (pair_of st.e)) }
{
    let bound = ((size::key_weight(level) + 1) / 2 + 1) as u16;
    let again = marks(level, key, st.x, bound, bound, rows);
    turned(
        level,
        key,
        s,
        flipped(level, st.e, among(level, marked, again.high)),
        rows,
    )
}

// Round i + 1: all counters are taken from the residual at its start, and mark the black bits and the gray ones.
pub fn step(level: u32, key: Key, s: [u64; WORDS], st: State, i: usize, rows: &mut Rows) -> State
    requires fact_1 { Good (level_of level) key }
    requires fact_2 { InRing (level_of level).r (bits 64 s) × Carried (level_of level) (key_of (level_of level) key) (bits 64 s) st }
    ensures { Carried (level_of level) (key_of (level_of level) key) (bits 64 s) result
        × (pair_of result.e ≡ Decoder.step (level_of level) (key_of (level_of level) key) (bits 64 s) i (pair_of st.e)) }
{
    let t = bound_of(level, st.x);
    let m = marks(level, key, st.x, t, t - 3, rows);
    let black = m.high;
    let first = turned(level, key, s, flipped(level, st.e, black), rows);
    if 0 < i {
        return first;
    }
    let gray = without(level, m.low, black);
    let second = masked_step(level, key, s, black, first, rows);
    masked_step(level, key, s, gray, second, rows)
}

// All five rounds run, whatever is left. The first residual is the syndrome. A loop shared with `until_gone` would have
// an exit, which opening may not have.
fn rounds(level: u32, key: Key, s: [u64; WORDS]) -> State
    requires fact_1 { Good (level_of level) key }
    requires fact_2 { InRing (level_of level).r (bits 64 s) }
    ensures { Carried (level_of level) (key_of (level_of level) key) (bits 64 s) result
        × (pair_of result.e ≡ Decoder.bgf (level_of level) (key_of (level_of level) key) (bits 64 s)) }
{
    let mut rows = Rows::blank();
    let mut st = State { x: s, e: nothing() };
    for i in 0..ROUNDS {
        st = step(level, key, s, st, i, &mut rows);
    }
    st
}

// The error of a decoding that left no bit of the residual, and no error after one that left some. No branch tells
// which.
pub fn kept(level: u32, left: usize, e: Pair) -> Pair
    requires fact_1 { left ≤ 131072 }
    requires fact_2 { Inside (level_of level) e }
    ensures { pair_of result ≡ Working.kept (ltb 0 left) (pair_of e) }
{
    let mask = filled(masks::word(left));
    among(
        level,
        Pair {
            half0: mask,
            half1: mask,
        },
        e,
    )
}

// The flag stands beside the error, which is nothing after a failure: opening may not branch on it.
#[derive(Drop)]
pub struct Found {
    pub failed: bool,
    pub error: Pair,
}

// Whether a residual is left after five rounds, and what was found.
pub fn find(level: u32, key: Key, s: [u64; WORDS]) -> Found
    requires fact_1 { Good (level_of level) key }
    requires fact_2 { InRing (level_of level).r (bits 64 s) }
    ensures { (result.failed ≡ Decoder.failed Decoder.bgf (level_of level) (key_of (level_of level) key) (bits 64 s))
        × (pair_of result.error ≡ Decoder.found Decoder.bgf (level_of level) (key_of (level_of level) key) (bits 64 s)) }
{
    let st = rounds(level, key, s);
    let left = ones(level, st.x);
    Found {
        failed: 0 < left,
        error: kept(level, left, st.e),
    }
}
