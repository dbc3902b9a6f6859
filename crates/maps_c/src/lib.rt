// The doors of `maps` as C calls them, by `include/bike_map.h`: each slice is a pointer and a length, and the last
// counter is a pointer.
#![tactic(auto)]

ghost use Rattle.std.specs.Prelude.{length};
ghost use Rattle.maps.specs.Promises.{WriteMapPromise, AcceptMapPromise};

use maps::doors;

#[unsafe(no_mangle)]
pub extern "C" fn bike_map_write(
    level: u32,
    session_key: &[u8],
    kart: u32,
    counter: u32,
    map: &[u8],
    bytes: &mut [u8],
) -> u32
    ensures { WriteMapPromise level session_key.now kart counter map.now (length bytes.old)
        result bytes.new }
{
    doors::bike_map_write(level, session_key, kart, counter, map, bytes)
}

#[unsafe(no_mangle)]
pub extern "C" fn bike_map_accept(
    level: u32,
    session_key: &[u8],
    kart: u32,
    bytes: &[u8],
    stored_map: &mut [u8],
    last_counter: &mut u32,
) -> u32
    ensures { AcceptMapPromise level session_key.now kart bytes.now stored_map.old last_counter.old
        result stored_map.new last_counter.new }
{
    doors::bike_map_accept(level, session_key, kart, bytes, stored_map, last_counter)
}
