// Document 02, CR 11: the service desk's entry, which turns a private key round. The turned key opens what the key
// opens.
#![tactic(auto)]

pub mod judge;
mod rotation;

ghost use Rattle.std.specs.Prelude.{length};
ghost use Rattle.hashing.specs.Refusals.{answer};
ghost use Rattle.service.specs.Rotation.{RotateKeyPromise};

use hashing::Refusal;
use hashing::fill::zero;

// The private key with both halves times X^k.
pub fn rotate_key(level: u32, k: u32, private_key: &[u8], rotated: &mut [u8]) -> Result<(), Refusal>
    ensures { RotateKeyPromise level k private_key.now (length rotated.old) (answer result)
        rotated.new }
{
    if let Err(refusal) = judge::rotating(level, k, private_key, rotated.len()) {
        zero(rotated);
        return Err(refusal);
    }
    rotation::write(level, k, private_key, rotated);
    Ok(())
}
