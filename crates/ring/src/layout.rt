// The bytes of a polynomial.
ghost use Rattle.std.specs.Prelude.{◌≡◌, ◌<◌, length};
ghost use Rattle.ring.specs.Bytes.{byte_length, pad_set};
ghost use Rattle.ring.specs.inner.Sizes.{word_bits};

pub fn byte_length(r: usize) -> usize
    requires { r < word_bits }
    ensures { result ≡ byte_length r }
{
    (r + 7) / 8
}

pub fn pad_set(r: usize, bytes: &[u8]) -> bool
    requires { length bytes.now ≡ byte_length r }
    ensures { result ≡ pad_set r bytes.now }
{
    if r % 8 == 0 {
        return false;
    }
    let pad = bytes[r / 8] >> (r % 8);
    0 < pad
}
