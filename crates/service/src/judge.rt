// What the entry refuses before anything is written, the first that applies. The output comes in by its actual length,
// its room.
ghost use Rattle.std.specs.Prelude.{◌≡◌};
ghost use Rattle.hashing.specs.Answers.{first_of};
ghost use Rattle.hashing.specs.Refusals.{answer};
ghost use Rattle.service.specs.Rotation.{rotate_key_reasons};

use exchange::decoder::{is_good, read_key};
use hashing::Refusal;
use ring::level::known;
use ring::size;

pub fn rotating(level: u32, k: u32, private_key: &[u8], room: usize) -> Result<(), Refusal>
    ensures { answer result ≡ first_of (rotate_key_reasons level k private_key.now room) }
{
    if !known(level) {
        return Err(Refusal::UnknownLevel);
    }
    let n = size::private_key(level);
    if (private_key.len() != n) | (room != n) {
        return Err(Refusal::WrongLength);
    }
    if !is_good(level, read_key(level, private_key)) {
        return Err(Refusal::BadPosition);
    }
    if size::block(level) <= k as usize {
        return Err(Refusal::TurnTooFar);
    }
    Ok(())
}
