// A product by a factor that may have few ones, and then goes by its exponents.
ghost use Rattle.std.specs.Prelude.{◌≡◌, ◌%◌, ◌≤◌, ◌<◌};
ghost use Rattle.hashing.specs.Lists.{bits};
ghost use Rattle.ring.specs.Polynomials.{InRing, mul};
ghost use Rattle.ring.specs.inner.Ones.{Ones};
ghost use Rattle.ring.specs.inner.Sizes.{word_bits};

use crate::multiply::multiply;
use crate::positions::rising;
use crate::size::{MOST_D, WORDS};
use crate::sparse::sparse;

// More ones than are worth a list: a factor with so many is taken as it stands.
pub const MANY: usize = MOST_D + 1;

// x·y, where y has `ones` ones if these are few. Which way is taken depends on that number alone.
pub fn times(r: usize, x: [u64; WORDS], y: [u64; WORDS], ones: usize) -> [u64; WORDS]
    requires fact_1 { (r % 2 ≡ 1) × (64 ≤ r) × (r < word_bits) }
    requires fact_2 { InRing r (bits 64 x) × InRing r (bits 64 y) }
    requires fact_3 { Ones r (bits 64 y) ones }
    ensures { bits 64 result ≡ mul r (bits 64 x) (bits 64 y) }
{
    if ones <= MOST_D {
        let list = rising(r, y, ones);
        return sparse(r, &list, ones, x);
    }
    multiply(r, x, y)
}
