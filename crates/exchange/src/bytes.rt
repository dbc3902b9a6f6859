// Buffers filled from others, and compared. What they hold decides no branch and no index.
ghost use Rattle.std.specs.Prelude.{◌≡◌, length};
ghost use Rattle.ring.specs.Levels.{message_bytes};
ghost use Rattle.ring.specs.Polynomials.{Tells};
ghost use Rattle.exchange.specs.Scheme.{xor_bytes};

// The session key, the tail, the report and a map are written here: byte by byte, since the library's `copy_from_slice`
// may be a call of memmove, which no C caller has to bring.
pub fn copy(from: &[u8], out: &mut [u8])
    requires { length out.old ≡ length from.now }
    ensures { out.new ≡ from.now }
{
    for i in 0..from.len() {
        out[i] = from[i];
    }
}

pub fn xor(a: &[u8], b: &[u8], out: &mut [u8])
    requires { (length a.now ≡ message_bytes) × (length b.now ≡ message_bytes) × (length out.old ≡ message_bytes) }
    ensures { out.new ≡ xor_bytes a.now b.now }
{
    for i in 0..out.len() {
        out[i] = a[i] ^ b[i];
    }
}

// All bytes are looked at, wherever two differ.
pub fn same(a: &[u8], b: &[u8]) -> bool
    requires { length a.now ≡ length b.now }
    ensures { Tells result (a.now ≡ b.now) }
{
    let mut equal = true;
    for i in 0..a.len() {
        equal = equal & (a[i] == b[i]);
    }
    equal
}

fn pick(mask: u8, a: u8, b: u8) -> u8
    ensures { (mask ≡ 255 → result ≡ a) × (mask ≡ 0 → result ≡ b) }
{
    (a & mask) | (b & (255 - mask))
}

// The first of two buffers under the mask 255, the second under 0.
pub fn choose(mask: u8, a: &[u8], b: &[u8], out: &mut [u8])
    requires { (length a.now ≡ length out.old) × (length b.now ≡ length out.old) }
    ensures { (mask ≡ 255 → out.new ≡ a.now) × (mask ≡ 0 → out.new ≡ b.now) }
{
    for i in 0..out.len() {
        out[i] = pick(mask, a[i], b[i]);
    }
}
