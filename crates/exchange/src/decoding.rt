// Decoding a lent syndrome, once it is judged.
ghost use Rattle.std.specs.Prelude.{◌≡◌, length};
ghost use Rattle.hashing.specs.Answers.{first_of};
ghost use Rattle.hashing.specs.Lists.{bits};
ghost use Rattle.ring.specs.Bytes.{bytes_of};
ghost use Rattle.ring.specs.Levels.{level_of};
ghost use Rattle.exchange.specs.decoder.Decoder.{bgf, failed, found};
ghost use Rattle.exchange.specs.decoder.PrivateKey.{secret};
ghost use Rattle.exchange.specs.decoder.Stopping.{fewest};
ghost use Rattle.exchange.specs.Promises.{decoding_reasons};

use crate::decoder::{find, find_early, read_key};
use ring::words;

// Whether decoding failed, of which the entry makes its number; the halves hold what was found, which is nothing then.
pub fn write(level: u32, private_key: &[u8], syndrome: &[u8], e0: &mut [u8], e1: &mut [u8]) -> bool
    requires { first_of (decoding_reasons level private_key.now syndrome.now (length e0.old) (length e1.old)) ≡ 0 }
    ensures { (result ≡ failed bgf (level_of level) (secret (level_of level) private_key.now) (bits 8 syndrome.now))
        × (e0.new ≡ bytes_of (level_of level).r (found bgf (level_of level) (secret (level_of level) private_key.now) (bits 8 syndrome.now)).half0)
        × (e1.new ≡ bytes_of (level_of level).r (found bgf (level_of level) (secret (level_of level) private_key.now) (bits 8 syndrome.now)).half1) }
{
    let found = find(level, read_key(level, private_key), words::load(syndrome));
    words::store(found.error.half0, e0);
    words::store(found.error.half1, e1);
    found.failed
}

// Whether decoding failed, and how many rounds there were, which is told either way.
#[derive(Drop)]
pub struct Told {
    pub failed: bool,
    pub rounds: u32,
}

// The same by the decoder that stops early, and how many rounds it took.
pub fn write_early(
    level: u32,
    private_key: &[u8],
    syndrome: &[u8],
    e0: &mut [u8],
    e1: &mut [u8],
) -> Told
    requires { first_of (decoding_reasons level private_key.now syndrome.now (length e0.old) (length e1.old)) ≡ 0 }
    ensures { (result.failed ≡ failed bgf (level_of level) (secret (level_of level) private_key.now) (bits 8 syndrome.now))
        × (e0.new ≡ bytes_of (level_of level).r (found bgf (level_of level) (secret (level_of level) private_key.now) (bits 8 syndrome.now)).half0)
        × (e1.new ≡ bytes_of (level_of level).r (found bgf (level_of level) (secret (level_of level) private_key.now) (bits 8 syndrome.now)).half1)
        × (result.rounds ≡ fewest (level_of level) (secret (level_of level) private_key.now) (bits 8 syndrome.now)) }
{
    let early = find_early(level, read_key(level, private_key), words::load(syndrome));
    words::store(early.found.error.half0, e0);
    words::store(early.found.error.half1, e1);
    Told {
        failed: early.found.failed,
        rounds: early.rounds as u32,
    }
}
