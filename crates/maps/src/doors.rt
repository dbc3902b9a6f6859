// The doors that `maps_c` offers to C, with answers in numbers as C reads them. A door keeps its entry's promise; the
// last counter is changed in place.
ghost use Rattle.std.specs.Prelude.{length};
ghost use Rattle.maps.specs.Promises.{WriteMapPromise, AcceptMapPromise};

use hashing::refusal::answer;

pub fn bike_map_write(
    level: u32,
    session_key: &[u8],
    kart: u32,
    counter: u32,
    map: &[u8],
    bytes: &mut [u8],
) -> u32
    ensures { WriteMapPromise level session_key.now kart counter map.now (length bytes.old)
        result bytes.new }
{
    answer(crate::write_map(level, session_key, kart, counter, map, bytes))
}

pub fn bike_map_accept(
    level: u32,
    session_key: &[u8],
    kart: u32,
    bytes: &[u8],
    stored_map: &mut [u8],
    last_counter: &mut u32,
) -> u32
    ensures { AcceptMapPromise level session_key.now kart bytes.now stored_map.old last_counter.old
        result stored_map.new last_counter.new }
{
    match crate::accept_map(level, session_key, kart, bytes, stored_map, *last_counter) {
        Ok(counter) => {
            *last_counter = counter;
            0
        }
        Err(refusal) => refusal.number(),
    }
}
