// The doors that `packing_c` offers to C, on a level and byte slices, with answers in numbers as C reads them. A door
// keeps its entry's promise.
ghost use Rattle.std.specs.Prelude.{length};
ghost use Rattle.packing.specs.Promises.{PackPromise, UnpackPromise};

use hashing::refusal::answer;

pub fn bike_pack_key(level: u32, private_key: &[u8], packed_key: &mut [u8]) -> u32
    ensures { PackPromise level private_key.now (length packed_key.old) result packed_key.new }
{
    answer(crate::pack(level, private_key, packed_key))
}

pub fn bike_unpack_key(level: u32, packed_key: &[u8], private_key: &mut [u8]) -> u32
    ensures { UnpackPromise level packed_key.now (length private_key.old) result private_key.new }
{
    answer(crate::unpack(level, packed_key, private_key))
}
