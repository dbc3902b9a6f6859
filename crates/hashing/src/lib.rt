// SHAKE256 and SHA3-384 of FIPS 202.
#![tactic(auto)]

pub mod fill;
pub mod keccak;
pub mod kmac;
pub mod lanes;
pub mod refusal;
pub mod sponge;

ghost use Rattle.std.specs.Prelude.{◌≡◌, length};
ghost use Rattle.hashing.specs.Answers.{first_of};
ghost use Rattle.hashing.specs.Promises.{Shake256Promise, sha3_384_reasons, Sha3_384Promise};
ghost use Rattle.hashing.specs.Refusals.{answer};

use fill::zero;
pub use refusal::Refusal;

pub fn shake256(message: &[u8], out: &mut [u8])
    ensures { Shake256Promise message.now (length out.old) 0 out.new }
{
    sponge::digest(sponge::SHAKE256_RATE, sponge::SHAKE256_SUFFIX, message, out);
}

fn judge_sha3_384(room: usize) -> Result<(), Refusal>
    ensures { answer result ≡ first_of (sha3_384_reasons room) }
{
    if room != 48 {
        return Err(Refusal::WrongLength);
    }
    Ok(())
}

pub fn sha3_384(message: &[u8], out: &mut [u8]) -> Result<(), Refusal>
    ensures { Sha3_384Promise message.now (length out.old) (answer result) out.new }
{
    if let Err(refusal) = judge_sha3_384(out.len()) {
        zero(out);
        return Err(refusal);
    }
    sponge::digest(sponge::SHA3_384_RATE, sponge::SHA3_384_SUFFIX, message, out);
    Ok(())
}
