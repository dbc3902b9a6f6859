// Private keys in a shorter form, for a controller's tag: the tail first, then the positions, each with the binary
// digits of r.
#![tactic(auto)]

pub mod doors;
pub mod judge;
pub mod row;
pub mod size;

ghost use Rattle.std.specs.Prelude.{◌≡◌, length};
ghost use Rattle.hashing.specs.Answers.{first_of};
ghost use Rattle.hashing.specs.Refusals.{answer};
ghost use Rattle.ring.specs.Levels.{level_of};
ghost use Rattle.packing.specs.Packing;
ghost use Rattle.packing.specs.Promises.{pack_reasons, PackPromise, unpack_reasons, UnpackPromise};

use exchange::bytes::copy;
use exchange::decoder::{is_good, read_key};
use hashing::Refusal;
use hashing::fill::zero;
use ring::size::{TAIL, position_bits};

// A position has this many bits in a private key.
const TWO_BYTES: usize = 16;

// Packing, once it is judged.
fn write_packed(level: u32, private_key: &[u8], packed: &mut [u8])
    requires { first_of (pack_reasons level private_key.now (length packed.old)) ≡ 0 }
    ensures { packed.new ≡ Packing.packed (level_of level) private_key.now }
{
    let n = size::positions(level);
    let (tail, positions) = packed.split_at_mut(TAIL);
    copy(&private_key[2 * n..], tail);
    row::lay(private_key, n, TWO_BYTES, position_bits(level), positions);
}

// Unpacking, once it is judged.
fn write_unpacked(level: u32, packed: &[u8], private_key: &mut [u8])
    requires { first_of (unpack_reasons level packed.now (length private_key.old)) ≡ 0 }
    ensures { private_key.new ≡ Packing.unpacked (level_of level) packed.now }
{
    let n = size::positions(level);
    let (tail, row) = packed.split_at(TAIL);
    let (positions, rest) = private_key.split_at_mut(2 * n);
    row::lay(row, n, position_bits(level), TWO_BYTES, positions);
    copy(tail, rest);
}

// The packed form of a private key.
pub fn pack(level: u32, private_key: &[u8], packed: &mut [u8]) -> Result<(), Refusal>
    ensures { PackPromise level private_key.now (length packed.old) (answer result) packed.new }
{
    if let Err(refusal) = judge::packing(level, private_key, packed.len()) {
        zero(packed);
        return Err(refusal);
    }
    write_packed(level, private_key, packed);
    Ok(())
}

// The private key of a packed form. Its positions are judged where they stand unpacked.
pub fn unpack(level: u32, packed: &[u8], private_key: &mut [u8]) -> Result<(), Refusal>
    ensures { UnpackPromise level packed.now (length private_key.old) (answer result)
        private_key.new }
{
    if let Err(refusal) = judge::unpacking(level, packed, private_key.len()) {
        zero(private_key);
        return Err(refusal);
    }
    write_unpacked(level, packed, private_key);
    if !is_good(level, read_key(level, private_key)) {
        zero(private_key);
        return Err(Refusal::BadPosition);
    }
    Ok(())
}
