// The exponents of a polynomial, in rising order: its weight gives the number of turns, so that what runs does not tell
// where they lie. And one of them moved on round the circle.
ghost use Rattle.std.specs.Prelude.{◌≡◌, ◌+◌, ◌-◌, ◌%◌, ◌^◌, ◌≤◌, ◌<◌, length, take};
ghost use Rattle.std.specs.Int.Count.{count_trailing_zeros};
ghost use Rattle.hashing.specs.Lists.{bits};
ghost use Rattle.ring.specs.Polynomials;
ghost use Rattle.ring.specs.Polynomials.{InRing};
ghost use Rattle.ring.specs.inner.Sizes.{word_bits, most_d};

use crate::size::{MOST_D, WORDS};

// Room for those of a half of a private key, and a place for what a turn writes that lists none.
pub const LISTED: usize = MOST_D + 1;

// A word without its lowest bit, which has `zeros` below it; 0 stays 0. By arithmetic, with no branch.
fn without_lowest(w: u64, zeros: u64) -> u64
    requires { zeros ≡ count_trailing_zeros 64 w }
    ensures { (w ≡ 0 → result ≡ 0) × (0 < w → result ≡ w - 2 ^ zeros) }
{
    w - ((1 - zeros / 64) << (zeros % 64))
}

// The `count` exponents of x, at the start of the list. A turn takes the lowest bit off word i and lists it, or, where
// none is left, goes on to the next word: it writes in any case, and what it writes without a bit is overwritten.
pub fn rising(r: usize, x: [u64; WORDS], count: usize) -> [u16; LISTED]
    requires fact_1 { (r < word_bits) × (count ≤ most_d) }
    requires fact_2 { InRing r (bits 64 x) }
    requires fact_3 { length (Polynomials.rising r (bits 64 x)) ≡ count }
    ensures { take count result ≡ Polynomials.rising r (bits 64 x) }
{
    let mut out = [0u16; LISTED];
    let mut left = x;
    let mut i = 0;
    let mut n = 0;
    for turn in 0..r / 64 + count {
        let w = left[i];
        let zeros = u64::trailing_zeros(w);
        let none = (zeros / 64) as usize;
        out[n] = (64 * i + zeros as usize) as u16;
        left[i] = without_lowest(w, zeros as u64);
        i += none;
        n += 1 - none;
    }
    out
}

// A place in a circle of r places, moved on.
pub fn moved(r: usize, at: usize, by: usize) -> usize
    requires { (at < r) × (by ≤ r) × (r < word_bits) }
    ensures { result ≡ (at + by) % r }
{
    let next = at + by;
    if next < r { next } else { next - r }
}
