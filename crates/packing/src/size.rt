// The sizes of a packed key, all from r and d.
ghost use Rattle.std.specs.Prelude.{◌≡◌};
ghost use Rattle.ring.specs.Levels.{level_of};
ghost use Rattle.packing.specs.Packing.{positions_in, packed_bits, packed_bytes};

use ring::layout::byte_length;
use ring::size;

// Of both halves.
pub fn positions(level: u32) -> usize
    ensures { result ≡ positions_in (level_of level) }
{
    let d = size::key_weight(level);
    d + d
}

pub fn packed_bits(level: u32) -> usize
    ensures { result ≡ packed_bits (level_of level) }
{
    positions(level) * size::position_bits(level)
}

pub fn packed_key(level: u32) -> usize
    ensures { result ≡ packed_bytes (level_of level) }
{
    size::TAIL + byte_length(packed_bits(level))
}
