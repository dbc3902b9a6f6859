// Buffers filled with one value.
ghost use Rattle.std.specs.Prelude.{◌≡◌, length, replicate};

pub fn zero(out: &mut [u8])
    ensures { out.new ≡ replicate (length out.old) 0 }
{
    out.fill(0);
}

// An array of one value, of the length that its place asks.
pub fn filled<T: Copy, const N: usize>(value: T) -> [T; N]
    ensures { result ≡ replicate N value }
{
    [value; N]
}
