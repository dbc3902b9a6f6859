// A row of numbers of one width, laid out anew with another: a position has two bytes in a private key, and the binary
// digits of r in a packed one. Packing and unpacking are one function.
ghost use Rattle.std.specs.Prelude.{◌≡◌, ◌+◌, ◌*◌, ◌≤◌, ◌<◌, length};
ghost use Rattle.hashing.specs.Lists.{bits};
ghost use Rattle.ring.specs.Bytes.{number, list_of};
ghost use Rattle.ring.specs.Polynomials;
ghost use Rattle.ring.specs.inner.Sizes.{word_bytes};
ghost use Rattle.packing.specs.Packing.{in_row};
ghost use Rattle.packing.specs.inner.Widths.{Widths};

// The `count` numbers that stand in the bytes with `from` bits each, as a row with `to` bits each.
#[derive(Drop)]
struct Row<'a> {
    bytes: &'a [u8],
    count: usize,
    from: usize,
    to: usize,
    ghost widths: { Widths count from to bytes.now },
}

impl Row<'_> {
    // Bit n of the row: 0 after the last number, and where a number has fewer bits.
    fn bit(&self, n: usize) -> u8
        ensures { result ≡ Polynomials.bit (bits self.now.to (in_row self.now.from self.now.count self.now.bytes.now) n) }
    {
        let i = n / self.to;
        let k = n % self.to;
        if self.count <= i || self.from <= k {
            return 0;
        }
        let at = i * self.from + k;
        (self.bytes[at / 8] >> (at % 8)) % 2
    }

    fn byte(&self, j: usize) -> u8
        requires { j < word_bytes }
        ensures { result ≡ number 8 (λ e. bits self.now.to (in_row self.now.from self.now.count self.now.bytes.now) (j * 8 + e)) }
    {
        let mut byte = 0;
        for k in 0usize..8 {
            byte = byte + (self.bit(j * 8 + k) << k);
        }
        byte
    }
}

// As many bytes of the row as `out` has.
pub fn lay(bytes: &[u8], count: usize, from: usize, to: usize, out: &mut [u8])
    requires fact_1 { Widths count from to bytes.now }
    requires fact_2 { length out.old ≤ word_bytes }
    ensures { out.new ≡ list_of 8 (length out.old) (bits to (in_row from count bytes.now)) }
{
    let row = Row {
        bytes,
        count,
        from,
        to,
    };
    for (j, byte) in out.iter_mut().enumerate() {
        *byte = row.byte(j);
    }
}
