// The dense product: Karatsuba's way of three products of half the length, down to leaves of 49 or 42 words, which are
// multiplied by a comb with windows of 5 bits. The comb's table has the 32 multiples u·b of one factor; for each
// window, from the highest down, the sum so far is shifted by 5 and the rows that the window picks by the other
// factor's words are added, seven rows a pass. One table is made for a product and lent to all its leaves.
ghost use Rattle.std.specs.Prelude.{◌≡◌, ℕ, ◌+◌, ◌-◌, ◌*◌, ◌/◌, ◌%◌, ◌^◌, ◌≤◌, ◌<◌, length, get_or, take, drop, replicate};
ghost use Rattle.hashing.specs.Lists.{tab, bit_at, bits};
ghost use Rattle.ring.specs.Polynomials;
ghost use Rattle.ring.specs.Polynomials.{Poly, InRing, flip, parity, mul};
ghost use Rattle.ring.specs.inner.Wide.{shifted, wide, Away, Outside, Clear, Multiples, Leaf, start};
ghost use Rattle.ring.specs.inner.Sizes.{words, word_bits, leaf_words, row_words, table_words, first_row, half_words, factor_words, wide_words};

use crate::frame::cut;
use crate::size::WORDS;
use crate::words::{funnel, padded, place};
use hashing::fill::filled;

// The words of a leaf, seven for each pass of the comb, and of its product.
const LEAF: usize = 49;

const LEAF_WIDE: usize = 2 * LEAF;

const SHORT_LEAF: usize = 42;

// The factors of Levels 1 and 3; the longest, and half of it.
const FACTOR_1: usize = 4 * LEAF;

const FACTOR_3: usize = 8 * LEAF;

pub const FACTOR: usize = 16 * SHORT_LEAF;

const HALF: usize = 8 * SHORT_LEAF;

// Room for a product before it is reduced.
pub const WIDE: usize = 2 * FACTOR;

// A row of the table: 6 words of 0, a leaf's words and one for what u·b has above them, and words of 0 again. So a row
// that is moved up by m words, for m below 7, is the same row read from m words further left.
const ROW: usize = 64;

const TABLE: usize = 32 * ROW;

// Where row 1 has b itself.
const FIRST: usize = ROW + 6;

// Rows 2·v and 2·v + 1, from row v: twice it, and b once more.
fn fill_two(t: &mut [u64], v: usize, n: usize)
    requires { (0 < v) × (v < 16) × (n ≤ leaf_words) × (length t.old ≡ table_words) }
    ensures by_index { (i : ℕ) → Away (row_words * (2 * v) + 6) (n + 1) i → Away (row_words * (2 * v + 1) + 6) (n + 1) i
        → get_or t.new i 0 ≡ get_or t.old i 0 }
    ensures by_index_2 { (k : ℕ) → k < 64 * (n + 1) → bits 64 t.new (64 * (row_words * (2 * v) + 6) + k)
        ≡ bits 64 t.old (64 * (row_words * v + 6) + k - 1) }
    ensures by_index_3 { (k : ℕ) → k < 64 * (n + 1) → bits 64 t.new (64 * (row_words * (2 * v + 1) + 6) + k)
        ≡ flip (bits 64 t.old (64 * (row_words * v + 6) + k - 1)) (bits 64 t.old (64 * first_row + k)) }
{
    let from = ROW * v + 6;
    let to = ROW * (2 * v) + 6;
    for i in 0..n + 1 {
        let x = funnel(t[from + i - 1], t[from + i], 1);
        t[to + i] = x;
        t[to + ROW + i] = x ^ t[FIRST + i];
    }
}

// The table of the multiples of b, a leaf of n words.
fn multiples(t: &mut [u64], b: &[u64], n: usize)
    requires { (n ≤ leaf_words) × (length b.now ≡ n) × Clear n t.old }
    ensures { Clear n t.new × Multiples (bits 64 b.now) 32 t.new }
{
    place(t, b, FIRST);
    t[FIRST + n] = 0;
    for v in 1..16 {
        fill_two(t, v, n);
    }
}

// Where in the table the rows start that the window at bit w picks for words j to j + 6, each moved up to its word.
fn offsets(a: &[u64], j: usize, w: u64) -> [usize; 7]
    requires { (w < 64) × (j + 7 ≤ length a.now) }
    ensures { result ≡ tab 7 (start a.now w j) }
{
    let mut o = [0usize; 7];
    for m in 0..7 {
        let u = (a[j + m] >> w) % 32;
        o[m] = ROW * u as usize + (6 - m);
    }
    o
}

// Word i of the row that starts at o.
fn entry(t: &[u64], o: usize, i: usize) -> u64
    requires { o + i < length t.now }
    ensures { result ≡ get_or t.now (o + i) 0 }
{
    t[o + i]
}

// The sum of word i of seven rows.
fn seven(t: &[u64], o: [usize; 7], i: usize) -> u64
    requires { (m : ℕ) → m < 7 → get_or o m 0 + i < length t.now }
    ensures { (e : ℕ) → e < 64 → bit_at result e ≡ parity 7 (λ m. bit_at (get_or t.now (get_or o m 0 + i) 0) e) }
{
    entry(t, o[0], i)
        ^ entry(t, o[1], i)
        ^ entry(t, o[2], i)
        ^ entry(t, o[3], i)
        ^ entry(t, o[4], i)
        ^ entry(t, o[5], i)
        ^ entry(t, o[6], i)
}

// Seven rows are added to x, from word j on.
fn add_rows(x: &mut [u64], j: usize, t: &[u64], o: [usize; 7], len: usize)
    requires { (j + len ≤ length x.old) × ((m : ℕ) → m < 7 → get_or o m 0 + len ≤ length t.now) }
    ensures outside { Outside j len x.old x.new }
    ensures by_index { (k : ℕ) → k < 64 * len → bits 64 x.new (64 * j + k)
        ≡ flip (bits 64 x.old (64 * j + k)) (parity 7 (λ m. bits 64 t.now (64 * get_or o m 0 + k))) }
{
    for i in 0..len {
        x[j + i] = x[j + i] ^ seven(t, o, i);
    }
}

// The rows that the window at bit w picks are added to x, for the n words of a.
fn add_window(x: &mut [u64], a: &[u64], t: &[u64], w: u64, n: usize)
    requires { (w < 64) × (n ≤ leaf_words) × (n % 7 ≡ 0) × (length a.now ≡ n) × (2 * n ≤ length x.old) × (length t.now ≡ table_words) }
    ensures { (b : Poly) → Multiples b 32 t.now → InRing (64 * n) b → (k : ℕ)
        → bits 64 x.new k ≡ flip (bits 64 x.old k) (parity n
        (λ j. shifted (64 * j) (wide 5 (λ e. bit_at (get_or a.now j 0) (w + e)) b) k)) }
{
    for pass in 0..n / 7 {
        let j = 7 * pass;
        add_rows(x, j, t, offsets(a, j, w), n + 7);
    }
}

// x times X^5, as far as `len` words hold it.
fn shift_up(x: &mut [u64], len: usize)
    requires { len ≤ length x.old }
    ensures { (k : ℕ) → k < 64 * len → bits 64 x.new k ≡ shifted 5 (bits 64 x.old) k }
{
    let mut low = 0;
    for i in 0..len {
        let high = x[i];
        x[i] = funnel(low, high, 5);
        low = high;
    }
}

// The product of a, a leaf of n words, and of the one that the table is of. The highest of the 13 windows has 4 bits
// only: 65 is the next multiple of 5 after 64.
fn comb(a: &[u64], t: &[u64], n: usize) -> [u64; LEAF_WIDE]
    requires { (n ≤ leaf_words) × (n % 7 ≡ 0) × (length a.now ≡ n) × (length t.now ≡ table_words) }
    ensures { (b : Poly) → Multiples b 32 t.now → InRing (64 * n) b → (k : ℕ) → k < 128 * n
        → bits 64 result k ≡ wide (64 * n) (bits 64 a.now) b k }
{
    let mut x = [0u64; LEAF_WIDE];
    for window in (0..13).rev() {
        shift_up(&mut x, 2 * n);
        add_window(&mut x, a, t, 5 * window, n);
    }
    x
}

// The product of two leaves of n words.
fn leaf(a: &[u64], b: &[u64], c: &mut [u64], t: &mut [u64], n: usize)
    requires { (n ≤ leaf_words) × (n % 7 ≡ 0) × (length a.now ≡ n) × (length b.now ≡ n) × (length c.old ≡ 2 * n) × Clear n t.old }
    ensures { Clear n t.new × (bits 64 c.new ≡ wide (64 * n) (bits 64 a.now) (bits 64 b.now)) }
{
    multiples(t, b, n);
    let x = comb(a, t, n);
    place(c, &x[..2 * n], 0);
}

// The same, with the number of words written out: the loops of a leaf have fixed ends.
fn fixed_leaf(a: &[u64], b: &[u64], c: &mut [u64], t: &mut [u64], n: usize)
    requires { Leaf n × (length a.now ≡ n) × (length b.now ≡ n) × (length c.old ≡ 2 * n) × Clear n t.old }
    ensures { Clear n t.new × (bits 64 c.new ≡ wide (64 * n) (bits 64 a.now) (bits 64 b.now)) }
{
    if n == 42 {
        leaf(a, b, c, t, 42);
        return;
    }
    leaf(a, b, c, t, 49);
}

// m is added to c, from word `at` on.
fn add(c: &mut [u64], at: usize, m: &[u64])
    requires { at + length m.now ≤ length c.old }
    ensures { bits 64 c.new ≡ Polynomials.add (bits 64 c.old) (shifted (64 * at) (bits 64 m.now)) }
{
    for i in 0..m.len() {
        c[at + i] = c[at + i] ^ m[i];
    }
}

// The two halves of a, each of h words, are added to s.
fn add_halves(s: &mut [u64], a: &[u64], h: usize)
    requires { (length a.now ≡ 2 * h) × (h ≤ length s.old) }
    ensures { bits 64 s.new ≡ Polynomials.add (Polynomials.add (bits 64 s.old)
        (bits 64 (take h a.now))) (bits 64 (drop h a.now)) }
{
    add(s, 0, &a[..h]);
    add(s, 0, &a[h..]);
}

// The product of the low halves, and above it that of the high ones.
#[cycle(karatsuba_middle_outer)]
fn outer(a: &[u64], b: &[u64], c: &mut [u64], t: &mut [u64], h: usize, depth: usize, n: usize)
    requires { Leaf n × (2 * h ≤ factor_words) × (h ≡ n * 2 ^ depth) × (length a.now ≡ 2 * h) × (length b.now ≡ 2 * h)
        × (length c.old ≡ 4 * h) × Clear n t.old }
    ensures { Clear n t.new
        × (bits 64 (take (2 * h) c.new) ≡ wide (64 * h) (bits 64 (take h a.now)) (bits 64 (take h b.now)))
        × (bits 64 (drop (2 * h) c.new) ≡ wide (64 * h) (bits 64 (drop h a.now)) (bits 64 (drop h b.now))) }
{
    let m = 2 * h;
    karatsuba(&a[..h], &b[..h], &mut c[..m], t, depth, n);
    karatsuba(&a[h..], &b[h..], &mut c[m..], t, depth, n);
}

// The product of the sums of the halves, in the front of m.
#[cycle(karatsuba_middle_outer)]
fn middle(a: &[u64], b: &[u64], m: &mut [u64], t: &mut [u64], h: usize, depth: usize, n: usize)
    requires { Leaf n × (2 * h ≤ factor_words) × (h ≡ n * 2 ^ depth) × (length a.now ≡ 2 * h) × (length b.now ≡ 2 * h)
        × (2 * h ≤ length m.old) × Clear n t.old }
    ensures { Clear n t.new × (bits 64 (take (2 * h) m.new)
        ≡ wide (64 * h) (Polynomials.add (bits 64 (take h a.now)) (bits 64 (drop h a.now)))
        (Polynomials.add (bits 64 (take h b.now)) (bits 64 (drop h b.now)))) }
{
    let mut x: [u64; HALF] = filled(0);
    add_halves(&mut x, a, h);
    let mut y: [u64; HALF] = filled(0);
    add_halves(&mut y, b, h);
    let twice = 2 * h;
    karatsuba(&x[..h], &y[..h], &mut m[..twice], t, depth, n);
}

// c has two products of 2·h words, one above the other: both of them are added to m, and m is added half-way.
fn join(c: &mut [u64], m: &mut [u64], h: usize)
    requires { (length c.old ≡ 4 * h) × (2 * h ≤ length m.old) }
    ensures { bits 64 c.new ≡ Polynomials.add (bits 64 c.old)
        (shifted (64 * h) (Polynomials.add (Polynomials.add (bits 64 (take (2 * h) m.old))
        (bits 64 (take (2 * h) c.old))) (bits 64 (drop (2 * h) c.old)))) }
{
    let n = 2 * h;
    add_halves(m, c, n);
    add(c, h, &m[..n]);
}

// The product of two factors of n·2^depth words, n those of a leaf.
#[cycle(karatsuba_middle_outer)]
fn karatsuba(a: &[u64], b: &[u64], c: &mut [u64], t: &mut [u64], depth: usize, n: usize)
    requires { Leaf n × (n * 2 ^ depth ≤ factor_words) × (length a.now ≡ n * 2 ^ depth) × (length b.now ≡ n * 2 ^ depth)
        × (length c.old ≡ 2 * (n * 2 ^ depth)) × Clear n t.old }
    ensures { Clear n t.new × (bits 64 c.new
        ≡ wide (64 * length a.now) (bits 64 a.now) (bits 64 b.now)) }
{
    if depth == 0 {
        fixed_leaf(a, b, c, t, n);
        return;
    }
    let h = a.len() / 2;
    outer(a, b, c, t, h, depth - 1, n);
    let mut m: [u64; FACTOR] = filled(0);
    middle(a, b, &mut m, t, h, depth - 1, n);
    join(c, &mut m, h);
}

// How a factor is halved down to leaves: a leaf's words, how often, and the words of all.
#[derive(Drop)]
struct Split {
    leaf: usize,
    depth: usize,
    words: usize,
}

// That of a factor of n words.
fn split_of(n: usize) -> Split
    requires { n ≤ words }
    ensures { Leaf result.leaf × (result.words ≡ result.leaf * 2 ^ result.depth) × (n ≤ result.words) × (result.words ≤ factor_words) }
{
    if n <= FACTOR_1 {
        return Split {
            leaf: LEAF,
            depth: 2,
            words: FACTOR_1,
        };
    }
    if n <= FACTOR_3 {
        return Split {
            leaf: LEAF,
            depth: 3,
            words: FACTOR_3,
        };
    }
    Split {
        leaf: SHORT_LEAF,
        depth: 4,
        words: FACTOR,
    }
}

// The product of two polynomials of n words, before reduction.
fn wide_product(a: [u64; WORDS], b: [u64; WORDS], n: usize) -> [u64; WIDE]
    requires { (n ≤ words) × (InRing (64 * n) (bits 64 a)) × (InRing (64 * n) (bits 64 b)) }
    ensures { (k : ℕ) → k < 128 * n → bits 64 result k ≡ wide (64 * n) (bits 64 a) (bits 64 b) k }
{
    let split = split_of(n);
    let long = split.words;
    let pa: [u64; FACTOR] = padded(&a);
    let pb: [u64; FACTOR] = padded(&b);
    let mut c: [u64; WIDE] = filled(0);
    let mut t: [u64; TABLE] = filled(0);
    karatsuba(
        &pa[..long],
        &pb[..long],
        &mut c[..2 * long],
        &mut t,
        split.depth,
        split.leaf,
    );
    c
}

// X^r = 1: what stands from r on is added r further down.
pub fn reduce(x: [u64; WIDE], r: usize) -> [u64; WORDS]
    requires { (0 < r % 64) × (r < word_bits) }
    ensures { InRing r (bits 64 result) × ((k : ℕ) → k < r → bits 64 result k ≡ flip (bits 64 x k) (bits 64 x (k + r))) }
{
    let q = r / 64;
    let s = (r % 64) as u64;
    let mut y: [u64; WORDS] = filled(0);
    for i in 0..q + 1 {
        y[i] = x[i] ^ funnel(x[i + q], x[i + q + 1], 64 - s);
    }
    cut(r, y)
}

// The product in the ring of r.
pub fn multiply(r: usize, a: [u64; WORDS], b: [u64; WORDS]) -> [u64; WORDS]
    requires fact_1 { (r % 2 ≡ 1) × (r < word_bits) }
    requires fact_2 { InRing r (bits 64 a) }
    requires fact_3 { InRing r (bits 64 b) }
    ensures { bits 64 result ≡ mul r (bits 64 a) (bits 64 b) }
{
    reduce(wide_product(a, b, r / 64 + 1), r)
}
