// Masks, where a branch would tell what was chosen. They are made from a count whose range the compiler does not know:
// from a bool it would make a branch again.
ghost use Rattle.std.specs.Prelude.{◌≡◌, ◌-◌, ◌^◌, ◌≤◌, ◌<◌};

// 1 where nothing was counted, else 0.
fn none(count: usize) -> usize
    requires { count ≤ 131072 }
    ensures { (result ≤ 1) × (count ≡ 0 → result ≡ 1) × (0 < count → result ≡ 0) }
{
    1 - (count + 131071) / 131072
}

// All bits where nothing was counted, else none.
pub fn byte(count: usize) -> u8
    requires { count ≤ 131072 }
    ensures { (count ≡ 0 → result ≡ 255) × (0 < count → result ≡ 0) }
{
    (255 * none(count)) as u8
}

pub fn word(count: usize) -> u64
    requires { count ≤ 131072 }
    ensures { (count ≡ 0 → result ≡ 2 ^ 64 - 1) × (0 < count → result ≡ 0) }
{
    0xffffffffffffffff * none(count) as u64
}
