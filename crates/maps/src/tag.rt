// The tag: KMAC256 under the session key.
ghost use Rattle.std.specs.Prelude.{◌≡◌, length};
ghost use Rattle.ring.specs.Levels.{message_bytes};
ghost use Rattle.maps.specs.Writes.{tag_of};

use crate::parts::TAG;
use hashing::kmac::kmac256;

pub fn tag_of(session_key: &[u8], covered: &[u8]) -> [u8; TAG]
    requires { length session_key.now ≡ message_bytes }
    ensures { result ≡ tag_of session_key.now covered.now }
{
    let mut out = [0; TAG];
    kmac256(session_key, covered, b"kart map", &mut out);
    out
}
