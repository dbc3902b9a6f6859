// The counters of all bits of one half, bit by bit: plane k has the bit of weight 2^k of every counter, 64 places to a
// word. Eight rows go through full adders in a pass, and a bound is compared plane by plane. No branch sees a secret.
ghost use Rattle.std.specs.Prelude.{◌≡◌, false, not, ◌&&◌, ◌||◌, ℕ, ◌+◌, ◌*◌, ◌/◌, ◌%◌, ◌^◌, ◌≤◌, ◌<◌, ltb, leb, length, get_or};
ghost use Rattle.hashing.specs.Lists.{bit_at, bits};
ghost use Rattle.ring.specs.inner.Sizes.{words, word_bits, most_d};
ghost use Rattle.ring.specs.Polynomials.{bit, InRing};
ghost use Rattle.exchange.specs.inner.ByteRows.{row_at, empty_row};
ghost use Rattle.exchange.specs.inner.Counting.{total};
ghost use Rattle.exchange.specs.inner.Planes.{planes, block_words, plane_words, row_starts, column, number_at, counter_at, ones_at, in_row, Within, Kept, reaches_at};

use crate::decoder::rows::{BLOCK, BLOCKS, EMPTY, ROW, ROWS, Rows};
use hashing::fill::filled;
use hashing::lanes::eight_bytes;
use ring::WORDS;
use ring::frame::cut;
use ring::size::MOST_D;

// Eight planes count to 255, and a half has at most 137 positions.
const PLANES: usize = 8;

// The words of a block, of a plane, and of all planes.
const BLOCK_WORDS: usize = BLOCK / 8;

const PLANE: usize = BLOCKS * BLOCK_WORDS;

const COUNTERS: usize = PLANES * PLANE;

// Room for the starts of rows, in passes of eight.
const STARTS: usize = 8 * ((MOST_D + 7) / 8);

// Place by place the sum of three bits, low + 2 carry.
#[derive(Drop)]
struct Sum {
    low: u64,
    carry: u64,
}

fn three(x: u64, y: u64, z: u64) -> Sum
    ensures { (e : ℕ) → bit (bit_at result.low e) + 2 * bit (bit_at result.carry e) ≡ bit (bit_at x e) + bit (bit_at y e) + bit (bit_at z e) }
{
    let odd = x ^ y;
    Sum {
        low: odd ^ z,
        carry: (x & y) | (odd & z),
    }
}

// A carry goes on from plane `from`.
fn carried(p: [u64; PLANES], from: usize, carry: u64) -> [u64; PLANES]
    requires { from ≤ planes }
    ensures { (e : ℕ) → number_at p e + bit (bit_at carry e) * 2 ^ from < 2 ^ planes
        → number_at result e ≡ number_at p e + bit (bit_at carry e) * 2 ^ from }
{
    let mut q = p;
    let mut c = carry;
    for k in from..PLANES {
        let both = q[k] & c;
        q[k] = q[k] ^ c;
        c = both;
    }
    q
}

// Eight words more: two at a time into plane 0, their carries into plane 1, and so on.
fn added(p: [u64; PLANES], x: [u64; 8]) -> [u64; PLANES]
    ensures { (e : ℕ) → number_at p e + ones_at x e < 2 ^ planes → number_at result e ≡ number_at p e + ones_at x e }
{
    let a = three(p[0], x[0], x[1]);
    let b = three(a.low, x[2], x[3]);
    let c = three(b.low, x[4], x[5]);
    let d = three(c.low, x[6], x[7]);
    let e = three(p[1], a.carry, b.carry);
    let f = three(e.low, c.carry, d.carry);
    let g = three(p[2], e.carry, f.carry);
    let mut q = p;
    q[0] = d.low;
    q[1] = f.low;
    q[2] = g.low;
    carried(q, 3, g.carry)
}

// Word i of each plane.
fn column_of(p: &[u64; COUNTERS], i: usize) -> [u64; PLANES]
    requires { i < plane_words }
    ensures { result ≡ column p.now i }
{
    let mut q = [0u64; PLANES];
    for k in 0..PLANES {
        q[k] = p[PLANE * k + i];
    }
    q
}

// One output array with the planes at literal distances, so that the loop over words is vectorised.
fn set_column(p: &mut [u64; COUNTERS], i: usize, q: [u64; PLANES])
    requires { i < plane_words }
    ensures fact_1 { column p.new i ≡ q }
    ensures fact_2 { ((j : ℕ) → j < plane_words → (j ≡ i → ⊥) → column p.new j ≡ column p.old j) }
{
    for k in 0..PLANES {
        p[PLANE * k + i] = q[k];
    }
}

// Word i of the eight rows from place k of the starts on.
fn eight(f: &[u8; ROWS], starts: &[usize; STARTS], k: usize, i: usize) -> [u64; 8]
    requires { Within starts.now × (k + 8 ≤ row_starts) × (i < plane_words) }
    ensures { (e : ℕ) → e < 64 → ones_at result e ≡ total 8 (λ m. in_row f.now starts.now (64 * i + e) (k + m)) }
{
    let mut x = [0u64; 8];
    for m in 0..8 {
        x[m] = eight_bytes(f, starts[k + m] + 8 * i);
    }
    x
}

// Adds eight rows to the counters of the block that starts at word `from`. The compiler knows the loop's end.
fn add_rows(
    p: &mut [u64; COUNTERS],
    f: &[u8; ROWS],
    starts: &[usize; STARTS],
    k: usize,
    from: usize,
)
    requires fact_1 { (from + block_words ≤ plane_words) × (k + 8 ≤ row_starts) }
    requires fact_2 { Within starts.now }
    ensures fact_1 { ((i e : ℕ) → from ≤ i → i < from + block_words → e < 64
        → number_at (column p.old i) e + total 8 (λ m. in_row f.now starts.now (64 * i + e) (k + m)) < 2 ^ planes
        → number_at (column p.new i) e
        ≡ number_at (column p.old i) e + total 8 (λ m. in_row f.now starts.now (64 * i + e) (k + m))) }
    ensures fact_2 { Kept from p.old p.new }
{
    for i in 0..BLOCK_WORDS {
        let sum = added(column_of(p, from + i), eight(f, starts, k, from + i));
        set_column(p, from + i, sum);
    }
}

// Counts the first d rows in a block whose counters are 0. The rows past them are empty.
fn count_block(
    p: &mut [u64; COUNTERS],
    f: &[u8; ROWS],
    starts: &[usize; STARTS],
    d: usize,
    from: usize,
)
    requires fact_1 { (from + block_words ≤ plane_words) × (d ≤ most_d) }
    requires fact_2 { ((i e : ℕ) → from ≤ i → i < from + block_words → number_at (column p.old i) e ≡ 0) }
    requires fact_3 { Within starts.now
        × ((m j : ℕ) → d ≤ m → m < row_starts → j < 64 * plane_words → bits 8 f.now (8 * get_or starts.now m 0 + j) ≡ false) }
    ensures fact_1 { ((i e : ℕ) → from ≤ i → i < from + block_words → e < 64
        → number_at (column p.new i) e ≡ total d (in_row f.now starts.now (64 * i + e))) }
    ensures fact_2 { Kept from p.old p.new }
{
    for pass in 0..(d + 7) / 8 {
        add_rows(p, f, starts, 8 * pass, from);
    }
}

// Where the rows of the positions start; past them stands the row of zeros.
fn starts_of(positions: &[u16], d: usize) -> [usize; STARTS]
    requires { (d ≤ length positions.now) × (d ≤ most_d) }
    ensures fact_1 { ((i : ℕ) → i < d → get_or result i 0 ≡ row_at (get_or positions.now i 0)) }
    ensures fact_2 { ((i : ℕ) → d ≤ i → i < row_starts → get_or result i 0 ≡ empty_row) }
{
    let mut s = [EMPTY; STARTS];
    for i in 0..d {
        let b = positions[i] as usize;
        s[i] = b % 8 * ROW + b / 8;
    }
    s
}

// For each bit below r, how many of the d positions have it set in the rows. Block by block, so that the planes in work
// stay near.
pub fn counters(r: usize, positions: &[u16], d: usize, rows: &Rows) -> [u64; COUNTERS]
    requires fact_1 { (r < word_bits) × (d ≤ length positions.now) × (d ≤ most_d) }
    requires fact_2 { ((i : ℕ) → i < d → get_or positions.now i 0 < r) }
    ensures fact_1 { ((j : ℕ) → j < r → counter_at result j ≡ total d (λ i. bit (bits 8 rows.now.bytes (8 * row_at (get_or positions.now i 0) + j)))) }
    ensures fact_2 { ((j : ℕ) → j < r → counter_at result j ≤ most_d) }
{
    let starts = starts_of(positions, d);
    let n = (r / 64 + BLOCK_WORDS) / BLOCK_WORDS;
    let mut p = filled(0);
    for b in 0..n {
        count_block(&mut p, &rows.bytes, &starts, d, BLOCK_WORDS * b);
    }
    p
}

// All bits where a digit of the bound is 0, else none. A bound that the planes do not hold is as the largest number
// that they do, which no counter reaches. Of a u8 the compiler would make its highest digit a jump.
fn masks(bound: u16) -> [u64; PLANES]
    ensures { (k e : ℕ) → k < planes → e < 64 → bit_at (get_or result k 0) e ≡ not (bit_at bound k || bit_at bound planes) }
{
    let b = bound as u64;
    let mut clear = [0u64; PLANES];
    for k in 0..PLANES {
        clear[k] = u64::MAX * (1 - ((b >> k) | (b >> PLANES)) % 2);
    }
    clear
}

// Which numbers of a column reach the bound, plane by plane from the lowest.
fn reached(q: [u64; PLANES], clear: [u64; PLANES]) -> u64
    ensures { (e : ℕ) → e < 64 → bit_at result e ≡ reaches_at clear q e }
{
    let mut g = u64::MAX;
    for k in 0..PLANES {
        g = (g & q[k]) | ((g ^ q[k]) & clear[k]);
    }
    g
}

fn compared(p: &[u64; COUNTERS], clear: [u64; PLANES], n: usize) -> [u64; WORDS]
    requires { n ≤ words }
    ensures fact_1 { InRing (64 * n) (bits 64 result) }
    ensures fact_2 { ((j : ℕ) → j < 64 * n → bits 64 result j ≡ reaches_at clear (column p.now (j / 64)) (j % 64)) }
{
    let mut x = filled(0);
    for i in 0..n {
        x[i] = reached(column_of(p, i), clear);
    }
    x
}

// The bits below r whose counter reaches the bound.
pub fn reaching(r: usize, p: &[u64; COUNTERS], bound: u16) -> [u64; WORDS]
    requires { (r < word_bits) × (bound < 256) × ((j : ℕ) → j < r → counter_at p.now j ≤ most_d) }
    ensures { bits 64 result ≡ (λ j. ltb j r && leb bound (counter_at p.now j)) }
{
    cut(r, compared(p, masks(bound), r / 64 + 1))
}
