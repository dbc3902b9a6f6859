// The doors of `packing` as C calls them, by `include/bike_pack.h`: each slice is a pointer and a length.
#![tactic(auto)]

ghost use Rattle.std.specs.Prelude.{length};
ghost use Rattle.packing.specs.Promises.{PackPromise, UnpackPromise};

use packing::doors;

#[unsafe(no_mangle)]
pub extern "C" fn bike_pack_key(level: u32, private_key: &[u8], packed_key: &mut [u8]) -> u32
    ensures { PackPromise level private_key.now (length packed_key.old) result packed_key.new }
{
    doors::bike_pack_key(level, private_key, packed_key)
}

#[unsafe(no_mangle)]
pub extern "C" fn bike_unpack_key(level: u32, packed_key: &[u8], private_key: &mut [u8]) -> u32
    ensures { UnpackPromise level packed_key.now (length private_key.old) result private_key.new }
{
    doors::bike_unpack_key(level, packed_key, private_key)
}
