// Two polynomials, one for each half of an error: their bits, flipped and chosen.
ghost use Rattle.std.specs.Prelude.{◌≡◌, ◌&&◌, ◌*◌, ◌≤◌};
ghost use Rattle.hashing.specs.Lists.{bits};
ghost use Rattle.ring.specs.inner.Sizes.{words};
ghost use Rattle.ring.specs.Levels.{level_of};
ghost use Rattle.ring.specs.Polynomials.{InRing};
ghost use Rattle.exchange.specs.decoder.Decoder;
ghost use Rattle.exchange.specs.inner.Working.{pair_of, Inside};

use crate::halves::Pair;
use hashing::fill::filled;
use ring::{WORDS, size, words};

// The bits that two polynomials of n words have both. One function for this and `words::sum` would take a closure on
// two words, and its clauses would be longer than either loop.
fn common(a: [u64; WORDS], b: [u64; WORDS], n: usize) -> [u64; WORDS]
    requires { (n ≤ words) × InRing (64 * n) (bits 64 b) }
    ensures { bits 64 result ≡ (λ j. bits 64 a j && bits 64 b j) }
{
    let mut c = filled(0);
    for i in 0..n {
        c[i] = a[i] & b[i];
    }
    c
}

pub fn flipped(level: u32, e: Pair, m: Pair) -> Pair
    requires { Inside (level_of level) e × Inside (level_of level) m }
    ensures { pair_of result ≡ Decoder.flipped (pair_of e) (pair_of m) }
{
    let n = size::block(level) / 64 + 1;
    Pair {
        half0: words::sum(e.half0, m.half0, n),
        half1: words::sum(e.half1, m.half1, n),
    }
}

pub fn among(level: u32, a: Pair, b: Pair) -> Pair
    requires { Inside (level_of level) b }
    ensures { pair_of result ≡ Decoder.among (pair_of a) (pair_of b) }
{
    let n = size::block(level) / 64 + 1;
    Pair {
        half0: common(a.half0, b.half0, n),
        half1: common(a.half1, b.half1, n),
    }
}

// Those of a that b has not: a, flipped where b has them too.
pub fn without(level: u32, a: Pair, b: Pair) -> Pair
    requires { Inside (level_of level) a }
    ensures { pair_of result ≡ Decoder.without (pair_of a) (pair_of b) }
{
    flipped(level, a, among(level, b, a))
}

// No error.
pub fn nothing() -> Pair
    ensures { pair_of result ≡ Decoder.nothing }
{
    Pair {
        half0: filled(0),
        half1: filled(0),
    }
}
