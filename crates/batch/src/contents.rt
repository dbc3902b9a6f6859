// What a whole triple holds: it is wrapped and decoded.
ghost use Rattle.std.specs.Prelude.{◌≡◌, true, length, take, IfOk};
ghost use Rattle.hashing.specs.Answers.{first_of};
ghost use Rattle.hashing.specs.Lists.{bits};
ghost use Rattle.hashing.specs.Refusals.{answer};
ghost use Rattle.ring.specs.Levels.{known, level_of, message_bytes, poly_bytes, ciphertext_bytes, private_bytes};
ghost use Rattle.exchange.specs.Promises.{wrapping_reasons};
ghost use Rattle.exchange.specs.Scheme;
ghost use Rattle.exchange.specs.Scheme.{error_replaced, key_digest, wrapped};
ghost use Rattle.batch.specs.Triples;

use crate::stop::Stop;
use exchange::decoder::{find_early, is_good, read_key};
use exchange::digest::{bound, key_digest};
use exchange::error::positions;
use exchange::opening::syndrome;
use exchange::wrap;
use hashing::fill::filled;
use hashing::refusal::Refusal;
use ring::{WORDS, size, words};

// What a triple adds to the totals, and how many bytes it has. The rounds are those after which its error was decoded.
#[derive(Clone, Copy)]
pub struct Gain {
    pub rounds: Option<usize>,
    pub replaced: u32,
    pub used: usize,
}

const MOST_CIPHERTEXT: usize = 8 * WORDS + size::MESSAGE;

// c0 of the message's ciphertext.
fn wrap_for(level: u32, public_key: &[u8], message: &[u8]) -> Result<[u64; WORDS], Refusal>
    ensures answer_value { answer result ≡ first_of (wrapping_reasons level public_key.now message.now
        (ciphertext_bytes (level_of level)) message_bytes) }
    ensures c0_value { IfOk result (λ c0. bits 64 c0 ≡ bits 8 (take (poly_bytes (level_of level))
        (wrapped (level_of level) (key_digest public_key.now) (bits 8 public_key.now) message.now))) }
{
    let n = size::ciphertext(level);
    let half = size::polynomial(level);
    let mut ciphertext: [u8; MOST_CIPHERTEXT] = filled(0);
    let mut session_key: [u8; size::MESSAGE] = filled(0);
    wrap(
        level,
        public_key,
        message,
        &mut ciphertext[..n],
        &mut session_key,
    )?;
    Ok(words::load(&ciphertext[..half]))
}

// How many positions H replaces for the message, tied to the public key.
fn replaced(level: u32, public_key: &[u8], message: &[u8]) -> u32
    ensures { result ≡ error_replaced (level_of level) (Scheme.bound (key_digest public_key.now) message.now) }
{
    let tied = bound(&key_digest(public_key), message);
    let sampled = positions(level, &tied);
    sampled.replaced
}

pub fn contents(
    level: u32,
    private_key: &[u8],
    public_key: &[u8],
    message: &[u8],
    used: usize,
) -> Result<Gain, Stop>
    requires level_value { known level ≡ true }
    requires private_key_len { (length private_key.now ≡ private_bytes (level_of level)) × (length public_key.now ≡ poly_bytes (level_of level))
        × (length message.now ≡ message_bytes) }
    ensures { result ≡ Triples.contents (level_of level) private_key.now public_key.now message.now used }
{
    let c0 = wrap_for(level, public_key, message)?;
    let key = read_key(level, private_key);
    if !is_good(level, key) {
        return Err(Stop::Refused(Refusal::BadPosition));
    }
    let early = find_early(level, key, syndrome(level, key, c0));
    let rounds = if early.found.failed {
        None
    } else {
        Some(early.rounds)
    };
    Ok(Gain {
        rounds,
        replaced: replaced(level, public_key, message),
        used,
    })
}
