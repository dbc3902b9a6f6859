// Bytes into lanes and out of them: eight at once where a lane begins and eight are left, which is one load or store in
// the compiled code, and one at a time elsewhere.
ghost use Rattle.std.specs.Prelude.{◌≡◌, ℕ, ◌+◌, ◌*◌, ◌/◌, ◌%◌, ◌^◌, ◌≤◌, ◌<◌, length, get_or};
ghost use Rattle.hashing.specs.Lists.{tab, bit_at, bits};
ghost use Rattle.hashing.specs.inner.Parts.{lane_of, AtOnce, overwritten};

// A byte as byte k of a lane, the lowest first.
pub fn byte_in(b: u8, k: usize) -> u64
    requires { k < 8 }
    ensures { result ≡ b * 2 ^ (8 * k) }
{
    (b as u64) << (8 * k)
}

// Byte k of a lane.
pub fn byte_of(lane: u64, k: usize) -> u8
    requires { k < 8 }
    ensures { result ≡ lane / 2 ^ (8 * k) % 256 }
{
    ((lane >> (8 * k)) % 256) as u8
}

// How many bytes go at once from byte k of a lane on, where the block has room for so many and so many are left.
pub fn at_once(k: usize, room: usize, left: usize) -> usize
    requires { (0 < room) × (0 < left) }
    ensures { AtOnce k result × (result ≤ room) × (result ≤ left) }
{
    if k != 0 {
        return 1;
    }
    if room < 8 {
        return 1;
    }
    if left < 8 {
        return 1;
    }
    8
}

// The eight bytes from `at` on, as a lane.
pub fn eight_bytes(b: &[u8], at: usize) -> u64
    requires { at + 8 ≤ length b.now }
    ensures fact_1 { result ≡ lane_of 0 8 (λ m. get_or b.now (at + m) 0) }
    ensures fact_2 { ((e : ℕ) → e < 64 → bit_at result e ≡ bits 8 b.now (8 * at + e)) }
{
    u64::from_le_bytes([
        b[at],
        b[at + 1],
        b[at + 2],
        b[at + 3],
        b[at + 4],
        b[at + 5],
        b[at + 6],
        b[at + 7],
    ])
}

// The n bytes from i on, as they stand in a lane from its byte k on.
pub fn part(bytes: &[u8], i: usize, n: usize, k: usize) -> u64
    requires { (k < 8) × AtOnce k n × (i + n ≤ length bytes.now) }
    ensures { result ≡ lane_of k n (λ m. get_or bytes.now (i + m) 0) }
{
    if n == 8 {
        return eight_bytes(bytes, i);
    }
    byte_in(bytes[i], k)
}

// A lane's bytes, from place i on.
pub fn lay_eight(lane: u64, out: &mut [u8], i: usize)
    requires { i + 8 ≤ length out.old }
    ensures { out.new ≡ overwritten i (tab 8 (λ m. lane / 2 ^ (8 * m) % 256)) out.old }
{
    out[i..i + 8].copy_from_slice(&lane.to_le_bytes());
}

// The n bytes of a lane from its byte k on, from place i on.
pub fn lay(lane: u64, k: usize, n: usize, out: &mut [u8], i: usize)
    requires { (k < 8) × AtOnce k n × (i + n ≤ length out.old) }
    ensures { out.new ≡ overwritten i (tab n (λ m. lane / 2 ^ (8 * (k + m)) % 256)) out.old }
{
    if n == 8 {
        lay_eight(lane, out, i);
        return;
    }
    out[i] = byte_of(lane, k);
}
