// The bits of half a word at the even places of a word. No branch, and five steps for all of them.
ghost use Rattle.std.specs.Prelude.{◌≡◌, false, ℕ, ◌+◌, ◌-◌, ◌*◌, ◌^◌, ◌<◌};
ghost use Rattle.hashing.specs.Lists.{bit_at};
ghost use Rattle.ring.specs.inner.Even.{Blocks};

// The upper half of each block moves up by s places, its own length.
fn apart(v: u64, s: u64, mask: u64) -> u64
    requires { s < 64 }
    ensures { (y n : ℕ) → s * (n + n) ≡ 32 → Blocks s (n + n) (2 ^ 32 - 1) mask → Blocks (s + s) n y v → Blocks s (n + n) y result }
{
    (v | (v << s)) & mask
}

fn even(y: u64) -> u64
    requires { y < 2 ^ 32 }
    ensures { Blocks 1 32 y result }
{
    let two = apart(y, 16, 0x0000ffff0000ffff);
    let four = apart(two, 8, 0x00ff00ff00ff00ff);
    let eight = apart(four, 4, 0x0f0f0f0f0f0f0f0f);
    let sixteen = apart(eight, 2, 0x3333333333333333);
    apart(sixteen, 1, 0x5555555555555555)
}

// The bits of one half word at the even places, and those of another at the odd ones.
pub fn alternate(a: u64, b: u64) -> u64
    requires { (a < 2 ^ 32) × (b < 2 ^ 32) }
    ensures { (k : ℕ) → k < 32 → (bit_at result (k + k) ≡ bit_at a k) × (bit_at result (k + k + 1) ≡ bit_at b k) }
{
    even(a) | (even(b) << 1)
}
