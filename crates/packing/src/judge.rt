// What each entry refuses before anything is written, the first that applies. An output comes in by its actual length,
// its room.
ghost use Rattle.std.specs.Prelude.{◌≡◌};
ghost use Rattle.hashing.specs.Answers.{first_of};
ghost use Rattle.hashing.specs.Refusals.{answer};
ghost use Rattle.packing.specs.Promises.{pack_reasons, unpack_reasons};

use crate::size::{packed_bits, packed_key};
use exchange::decoder::{is_good, read_key};
use hashing::Refusal;
use ring::layout::pad_set;
use ring::level::known;
use ring::size;
use ring::size::TAIL;

pub fn packing(level: u32, private_key: &[u8], room: usize) -> Result<(), Refusal>
    ensures { answer result ≡ first_of (pack_reasons level private_key.now room) }
{
    if !known(level) {
        return Err(Refusal::UnknownLevel);
    }
    if (private_key.len() != size::private_key(level)) | (room != packed_key(level)) {
        return Err(Refusal::WrongLength);
    }
    if !is_good(level, read_key(level, private_key)) {
        return Err(Refusal::BadPosition);
    }
    Ok(())
}

// 4 shows once the key is unpacked.
pub fn unpacking(level: u32, packed: &[u8], room: usize) -> Result<(), Refusal>
    ensures { answer result ≡ first_of (unpack_reasons level packed.now room) }
{
    if !known(level) {
        return Err(Refusal::UnknownLevel);
    }
    if (packed.len() != packed_key(level)) | (room != size::private_key(level)) {
        return Err(Refusal::WrongLength);
    }
    if pad_set(packed_bits(level), &packed[TAIL..]) {
        return Err(Refusal::PadBit);
    }
    Ok(())
}
