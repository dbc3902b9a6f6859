// A polynomial as rows of bytes: eight copies twice in a row, each a bit further down, and behind them a row of zeros.
// A window at any bit is then a run of bytes, and a product by few terms is a sum of such runs.
ghost use Rattle.std.specs.Prelude.{◌≡◌, [], ◌∷◌, ◌++◌, ℕ, ◌+◌, ◌*◌, ◌/◌, ◌≤◌, ◌<◌, length, get_or, drop, take};
ghost use Rattle.hashing.specs.Lists.{tab, bit_at, bits};
ghost use Rattle.ring.specs.inner.Sizes.{words, word_bits, most_d};
ghost use Rattle.ring.specs.Bytes.{list_of};
ghost use Rattle.ring.specs.Polynomials.{Poly, InRing, flip, parity, terms, mul};
ghost use Rattle.exchange.specs.inner.ByteRows;
ghost use Rattle.exchange.specs.inner.ByteRows.{block_bytes, blocks, row_bytes, empty_row, rows_bytes, EmptyRow, ByteRows, turned_row};

use hashing::fill::filled;
use hashing::lanes::lay_eight;
use ring::sparse::join;
use ring::{WORDS, words};

// The bytes of a block of the counters' planes, and how many the largest polynomial has.
pub const BLOCK: usize = 528;

pub const BLOCKS: usize = (WORDS + 65) / 66;

// The bytes of a copy, where the row of zeros starts, and room for all.
pub const ROW: usize = 8 * WORDS + BLOCKS * BLOCK;

pub const EMPTY: usize = 8 * ROW;

pub const ROWS: usize = EMPTY + BLOCKS * BLOCK;

// The bytes of a window.
pub const WINDOW: usize = BLOCKS * BLOCK;

// The copies of a polynomial, and behind them the zeros, to which nothing is written.
#[derive(Drop)]
pub struct Rows {
    pub bytes: [u8; ROWS],
    pub ghost empty: { EmptyRow bytes },
}

// The words after that of r: what stands r places before.
fn again(r: usize, x: &[u64; WORDS], f: &mut [u8; ROWS])
    requires fact_1 { (64 ≤ r) × (r < word_bits) }
    requires fact_2 { InRing r (bits 64 x.now) }
    requires fact_3 { f.old ≡ list_of 8 (8 * (r / 64 + 1)) (ByteRows.twice r (bits 64 x.now)) ++ drop (8 * (r / 64 + 1)) f.old }
    ensures { f.new ≡ list_of 8 (8 * ((2 * r + 63) / 64)) (ByteRows.twice r (bits 64 x.now))
        ++ drop (8 * ((2 * r + 63) / 64)) f.old }
{
    for j in r / 64 + 1..(2 * r + 63) / 64 {
        let from = 64 * j - r;
        let w = join(x[from / 64], words::word(x, from / 64 + 1), from % 64);
        lay_eight(w, f, 8 * j);
    }
}

fn twice(r: usize, x: [u64; WORDS], f: &mut [u8; ROWS])
    requires fact_1 { (64 ≤ r) × (r < word_bits) }
    requires fact_2 { InRing r (bits 64 x) }
    ensures { f.new ≡ list_of 8 (8 * ((2 * r + 63) / 64)) (ByteRows.twice r (bits 64 x))
        ++ drop (8 * ((2 * r + 63) / 64)) f.old }
{
    let q = r / 64;
    words::store(x, &mut f[..8 * q]);
    lay_eight(x[q] ^ (x[0] << (r % 64)), f, 8 * q);
    again(r, &x, f);
}

// The eight bits from bit s on of two bytes in a row.
fn joined(low: u8, high: u8, s: usize) -> u8
    requires { (0 < s) × (s < 8) }
    ensures { (e : ℕ) → e < 8 → bit_at result e ≡ bits 8 (low ∷ high ∷ []) (s + e) }
{
    (low >> s) | (high << (8 - s))
}

// The first n bytes of seven copies. One flat array and literal distances, so that the loop is vectorised.
fn copies(f: &mut [u8; ROWS], n: usize)
    requires { n < row_bytes }
    ensures fact_1 { ((s k : ℕ) → s < 8 → k < 8 * n → bits 8 f.new (8 * (s * row_bytes) + k) ≡ bits 8 f.old (s + k)) }
    ensures fact_2 { ((i : ℕ) → empty_row ≤ i → get_or f.new i 0 ≡ get_or f.old i 0) }
{
    for i in 0..n {
        let low = f[i];
        let high = f[i + 1];
        for s in 1..8 {
            f[s * ROW + i] = joined(low, high, s);
        }
    }
}

impl Rows {
    pub fn blank() -> Rows {
        Rows { bytes: filled(0) }
    }

    // The rows of x, whatever stood there before.
    pub fn set(&mut self, r: usize, x: [u64; WORDS])
        requires fact_1 { (64 ≤ r) × (r < word_bits) }
        requires fact_2 { InRing r (bits 64 x) }
        ensures { ByteRows r (bits 64 x) self.new.bytes }
    {
        twice(r, x, &mut self.bytes);
        copies(&mut self.bytes, 16 * (r / 64 + 1));
    }
}

// Where the row of x X^p starts, and past the d positions where the zeros do.
fn start(r: usize, positions: &[u16], d: usize, i: usize) -> usize
    requires fact_1 { (r < word_bits) × (d ≤ length positions.now) }
    requires fact_2 { ((k : ℕ) → k < d → get_or positions.now k 0 < r) }
    ensures { result ≡ turned_row r positions.now d i }
{
    if i < d {
        let b = r - positions[i] as usize;
        b % 8 * ROW + b / 8
    } else {
        EMPTY
    }
}

fn eight_starts(r: usize, positions: &[u16], d: usize, i: usize) -> [usize; 8]
    requires fact_1 { (r < word_bits) × (d ≤ length positions.now) × (i < 1024) }
    requires fact_2 { ((k : ℕ) → k < d → get_or positions.now k 0 < r) }
    ensures { result ≡ tab 8 (λ m. turned_row r positions.now d (i + m)) }
{
    let mut at = [0; 8];
    for m in 0..8 {
        at[m] = start(r, positions, d, i + m);
    }
    at
}

// The sum of byte i of eight rows.
fn eight(f: &[u8; ROWS], at: [usize; 8], i: usize) -> u8
    requires { (m : ℕ) → m < 8 → get_or at m 0 + i < rows_bytes }
    ensures { (e : ℕ) → e < 64 → bit_at result e ≡ parity 8 (λ m. bit_at (get_or f.now (get_or at m 0 + i) 0) e) }
{
    let mut sum = 0;
    for m in 0..8 {
        sum = sum ^ f[at[m] + i];
    }
    sum
}

// Adds the first n bytes of eight rows.
fn add_rows(z: &mut [u8; WINDOW], f: &[u8; ROWS], at: [usize; 8], n: usize)
    requires { (n ≤ blocks * block_bytes) × ((m : ℕ) → m < 8 → get_or at m 0 + n ≤ rows_bytes) }
    ensures { (k : ℕ) → k < 8 * n → bits 8 z.new k
        ≡ flip (bits 8 z.old k) (parity 8 (λ m. bits 8 f.now (8 * get_or at m 0 + k))) }
{
    for i in 0..n {
        z[i] = z[i] ^ eight(f, at, i);
    }
}

// Adds the product of what the rows hold by the terms of the positions, eight terms in a pass.
fn add_turned(r: usize, positions: &[u16], d: usize, rows: &Rows, z: &mut [u8; WINDOW])
    requires fact_1 { (64 ≤ r) × (r < word_bits) × (d ≤ length positions.now) × (d ≤ most_d) }
    requires fact_2 { ((i : ℕ) → i < d → get_or positions.now i 0 < r) }
    ensures { (x : Poly) → ByteRows r x rows.now.bytes → (k : ℕ) → k < r → bits 8 z.new k
        ≡ flip (bits 8 z.old k) (mul r (terms r (take d positions.now)) x k) }
{
    for pass in 0..(d + 7) / 8 {
        let at = eight_starts(r, positions, d, 8 * pass);
        add_rows(z, &rows.bytes, at, 32 * (r / 256 + 1));
    }
}

// Adds the product of x by the terms of the positions.
pub fn add_product(
    r: usize,
    positions: &[u16],
    d: usize,
    x: [u64; WORDS],
    rows: &mut Rows,
    z: &mut [u8; WINDOW],
)
    requires fact_1 { (64 ≤ r) × (r < word_bits) × (d ≤ length positions.now) × (d ≤ most_d) }
    requires fact_2 { ((i : ℕ) → i < d → get_or positions.now i 0 < r) }
    requires fact_3 { InRing r (bits 64 x) }
    ensures { (k : ℕ) → k < r → bits 8 z.new k
        ≡ flip (bits 8 z.old k) (mul r (terms r (take d positions.now)) (bits 64 x) k) }
{
    rows.set(r, x);
    add_turned(r, positions, d, rows, z);
}
