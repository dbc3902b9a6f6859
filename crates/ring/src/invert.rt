// The inverse of a as a^(2^(r-1) - 2), by a chain of products, and one product more where it is to be seen whether it is one.
ghost use Rattle.std.specs.Prelude.{◌≡◌, true, ℕ, ◌+◌, ◌-◌, ◌%◌, ◌^◌, ◌≤◌, ◌<◌, eqb, is_some, IfSome};
ghost use Rattle.hashing.specs.Lists.{bits};
ghost use Rattle.ring.specs.Polynomials.{InRing, Tells, one, mul, spread, has_inverse, inverse_of};
ghost use Rattle.ring.specs.Chain;
ghost use Rattle.ring.specs.Chain.{doubled, longer, chain, chain_products};
ghost use Rattle.ring.specs.inner.Ones.{Ones};
ghost use Rattle.ring.specs.inner.Sizes.{word_bits};

use crate::frame::is_zero;
use crate::size::WORDS;
use crate::square::{once, squared};
use crate::times::{MANY, times};

// Where the chain stands, and how many products led to it.
#[derive(Drop)]
struct Product {
    value: [u64; WORDS],
    count: u32,
}

// A product of the chain: k squarings of x, times y; the count so far is one higher.
fn step(r: usize, x: [u64; WORDS], k: usize, y: [u64; WORDS], ones: usize, count: u32) -> Product
    requires fact_1 { (r % 2 ≡ 1) × (64 ≤ r) × (r < word_bits) }
    requires fact_2 { InRing r (bits 64 y) }
    requires fact_3 { Ones r (bits 64 y) ones }
    requires fact_4 { count < 128 }
    ensures fact_1 { bits 64 result.value ≡ mul r (spread r (2 ^ k) (bits 64 x)) (bits 64 y) }
    ensures fact_2 { result.count ≡ count + 1 }
{
    Product {
        value: times(r, squared(r, x, k), y, ones),
        count: count + 1,
    }
}

// From a^(2^k - 1) to the next rung: the exponent is doubled in length, and is one longer where the digit is 1.
fn climb(
    r: usize,
    a: [u64; WORDS],
    ones: usize,
    x: [u64; WORDS],
    ones_x: usize,
    k: usize,
    digit: usize,
    count: u32,
) -> Product
    requires fact_1 { (r % 2 ≡ 1) × (64 ≤ r) × (r < word_bits) }
    requires fact_2 { InRing r (bits 64 a) × InRing r (bits 64 x) }
    requires fact_3 { Ones r (bits 64 a) ones × Ones r (bits 64 x) ones_x }
    requires fact_4 { count < 127 }
    ensures fact_1 { bits 64 result.value ≡ (longer r (bits 64 a) (eqb digit 1) (doubled r (record { value = bits 64 x; span = k; products = count }))).value }
    ensures fact_2 { result.count ≡ (longer r (bits 64 a) (eqb digit 1) (doubled r (record { value = bits 64 x; span = k; products = count }))).products }
{
    let twice = step(r, x, k, x, ones_x, count);
    if digit == 1 {
        let value = twice.value;
        return step(r, value, 1, a, ones, twice.count);
    }
    twice
}

// The place of the highest binary digit of u.
pub fn top(u: usize) -> usize
    requires { 0 < u }
    ensures { (result < 64) × (result ≡ Chain.top u) }
{
    63 - u64::leading_zeros(u as u64) as usize
}

// The first doubling has a itself for a factor, the others what the chain has made.
fn power(r: usize, a: [u64; WORDS], ones: usize) -> Product
    requires fact_1 { (r % 2 ≡ 1) × (64 ≤ r) × (r < word_bits) }
    requires fact_2 { InRing r (bits 64 a) }
    requires fact_3 { Ones r (bits 64 a) ones }
    ensures fact_1 { bits 64 result.value ≡ chain r (bits 64 a) }
    ensures fact_2 { result.count ≡ chain_products r (bits 64 a) }
{
    let u = r - 2;
    let mut x = a;
    let mut ones_x = ones;
    let mut count = 0;
    for n in (0..top(u)).rev() {
        let next = climb(r, a, ones, x, ones_x, u >> (n + 1), (u >> n) % 2, count);
        x = next.value;
        count = next.count;
        ones_x = MANY;
    }
    Product {
        value: once(r, x),
        count,
    }
}

fn is_one(x: [u64; WORDS]) -> bool
    ensures { (r : ℕ) → Tells result (bits 64 x ≡ one r) }
{
    let mut y = x;
    y[0] = y[0] ^ 1;
    is_zero(&y)
}

// The inverse, if there is one, and how many products its chain took.
#[derive(Drop)]
pub struct Inverse {
    pub value: Option<[u64; WORDS]>,
    pub products: u32,
}

// a has so many ones, if these are few.
pub fn invert(r: usize, a: [u64; WORDS], ones: usize) -> Inverse
    requires fact_1 { (r % 2 ≡ 1) × (64 ≤ r) × (r < word_bits) × (2 ^ (r - 1) % r ≡ 1) }
    requires fact_2 { InRing r (bits 64 a) }
    requires fact_3 { Ones r (bits 64 a) ones }
    ensures fact_1 { is_some result.value ≡ has_inverse r (bits 64 a) }
    ensures fact_2 { IfSome result.value (λ value. bits 64 value ≡ inverse_of r (bits 64 a)) }
    ensures fact_3 { result.products ≡ chain_products r (bits 64 a) }
{
    let made = power(r, a, ones);
    let value = made.value;
    Inverse {
        value: is_one(times(r, value, a, ones)).then_some(value),
        products: made.count,
    }
}

// The inverse of a polynomial that has one: nothing is left to be seen.
pub fn invert_unit(r: usize, a: [u64; WORDS], ones: usize) -> [u64; WORDS]
    requires fact_1 { (r % 2 ≡ 1) × (64 ≤ r) × (r < word_bits) × (2 ^ (r - 1) % r ≡ 1) }
    requires fact_2 { InRing r (bits 64 a) }
    requires fact_3 { Ones r (bits 64 a) ones }
    requires fact_4 { has_inverse r (bits 64 a) ≡ true }
    ensures { bits 64 result ≡ inverse_of r (bits 64 a) }
{
    let made = power(r, a, ones);
    made.value
}
