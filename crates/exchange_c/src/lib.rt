// The doors of `exchange` as C calls them, by `include/bike.h`: each slice is a pointer and a length.
#![tactic(auto)]

ghost use Rattle.std.specs.Prelude.{length};
ghost use Rattle.exchange.specs.Doors.{MakeKeyDoorPromise};
ghost use Rattle.exchange.specs.Promises.{WrapPromise, OpenPromise};

use exchange::doors;

#[unsafe(no_mangle)]
pub extern "C" fn bike_make_key(
    level: u32,
    seed: &[u8],
    public_key: &mut [u8],
    private_key: &mut [u8],
    report: &mut [u8],
) -> u32
    ensures { MakeKeyDoorPromise level seed.now (length public_key.old) (length private_key.old)
        (length report.old) result public_key.new private_key.new report.new }
{
    doors::bike_make_key(level, seed, public_key, private_key, report)
}

#[unsafe(no_mangle)]
pub extern "C" fn bike_wrap(
    level: u32,
    public_key: &[u8],
    message: &[u8],
    ciphertext: &mut [u8],
    session_key: &mut [u8],
) -> u32
    ensures { WrapPromise level public_key.now message.now (length ciphertext.old)
        (length session_key.old) result ciphertext.new session_key.new }
{
    doors::bike_wrap(level, public_key, message, ciphertext, session_key)
}

#[unsafe(no_mangle)]
pub extern "C" fn bike_open(
    level: u32,
    private_key: &[u8],
    ciphertext: &[u8],
    session_key: &mut [u8],
) -> u32
    ensures { OpenPromise level private_key.now ciphertext.now (length session_key.old)
        result session_key.new }
{
    doors::bike_open(level, private_key, ciphertext, session_key)
}
