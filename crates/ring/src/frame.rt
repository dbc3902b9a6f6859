// Words that have no bit set, or none from r on.
ghost use Rattle.std.specs.Prelude.{◌≡◌, false, ℕ, ◌+◌, ◌*◌, ◌/◌, ◌<◌, replicate};
ghost use Rattle.hashing.specs.Lists.{bits};
ghost use Rattle.ring.specs.Polynomials.{InRing, Tells};
ghost use Rattle.ring.specs.inner.Sizes.{words, word_bits};

use crate::size::WORDS;

// The loops over words go to the end of the word of r.
pub fn cut(r: usize, x: [u64; WORDS]) -> [u64; WORDS]
    requires fact_1 { r < word_bits }
    requires fact_2 { InRing (64 * (r / 64 + 1)) (bits 64 x) }
    ensures fact_1 { InRing r (bits 64 result) }
    ensures fact_2 { ((k : ℕ) → k < r → bits 64 result k ≡ bits 64 x k) }
{
    let last = r / 64;
    let mut y = x;
    y[last] = y[last] % (1 << (r % 64));
    y
}

// Whether no bit is set. All words are looked at, whatever they hold.
pub fn is_zero(x: &[u64]) -> bool
    ensures { Tells result (bits 64 x.now ≡ (λ k. false)) }
{
    let mut rest = 0;
    for word in x {
        rest |= *word;
    }
    rest == 0
}
