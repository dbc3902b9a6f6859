// Both ends of an exchange in one function: key making, wrapping and opening in turn. It is proved from their contracts
// alone.
#![tactic(auto)]

ghost use Rattle.std.specs.Prelude.{◌≡◌, ◌++◌, length, OnOk};
ghost use Rattle.hashing.specs.Answers.{first_of};
ghost use Rattle.hashing.specs.Refusals.{answer};
ghost use Rattle.ring.specs.Levels.{level_of};
ghost use Rattle.exchange.specs.Opening;
ghost use Rattle.exchange.specs.Promises.{work_reasons};
ghost use Rattle.exchange.specs.Scheme.{hash_k, private_of};
ghost use Rattle.exchange.specs.decoder.Decoder.{bgf};
ghost use Rattle.both_ends.specs.BothEnds.{sent_to, both_ends_reasons, BothEndsPromise, Agree};

use exchange::{make_key, open, wrap};
use hashing::Refusal;
use hashing::fill::zero;
use ring::level::known;
use ring::size;

// Room for the keys and the ciphertext of the largest level.
const PUBLIC: usize = 8 * size::WORDS;

const PRIVATE: usize = 4 * size::MOST_D + size::TAIL;

const CIPHERTEXT: usize = PUBLIC + size::MESSAGE;

fn judge(
    level: u32,
    seed: &[u8],
    message: &[u8],
    room_sent: usize,
    room_opened: usize,
) -> Result<(), Refusal>
    ensures { answer result ≡ first_of (both_ends_reasons level seed.now message.now room_sent room_opened) }
{
    if !known(level) {
        return Err(Refusal::UnknownLevel);
    }
    if (seed.len() != size::SEED)
        | (message.len() != size::MESSAGE)
        | (room_sent != size::MESSAGE)
        | (room_opened != size::MESSAGE)
    {
        return Err(Refusal::WrongLength);
    }
    Ok(())
}

// In turn, where nothing is refused.
fn run(
    level: u32,
    seed: &[u8],
    message: &[u8],
    sent: &mut [u8],
    opened: &mut [u8],
) -> Result<(), Refusal>
    ensures answered { answer result ≡ first_of (both_ends_reasons level seed.now message.now (length sent.old) (length opened.old)
        ++ work_reasons (level_of level) seed.now) }
    ensures keys { OnOk result ((sent.new ≡ hash_k message.now (sent_to (level_of level) seed.now message.now))
        × (opened.new ≡ Opening.opened bgf (level_of level) (private_of (level_of level) seed.now) (sent_to (level_of level) seed.now message.now))
        × Agree (level_of level) seed.now message.now sent.new opened.new) }
{
    judge(level, seed, message, sent.len(), opened.len())?;
    let n = size::polynomial(level);
    let p = size::private_key(level);
    let k = size::ciphertext(level);
    let mut public_key = [0; PUBLIC];
    let mut private_key = [0; PRIVATE];
    let mut ciphertext = [0; CIPHERTEXT];
    make_key(level, seed, &mut public_key[..n], &mut private_key[..p])?;
    wrap(level, &public_key[..n], message, &mut ciphertext[..k], sent)?;
    open(level, &private_key[..p], &ciphertext[..k], opened)?;
    Ok(())
}

// The session key of the end that wraps a message and of the end that opens it, under the key pair of a seed.
pub fn both_ends(
    level: u32,
    seed: &[u8],
    message: &[u8],
    sent: &mut [u8],
    opened: &mut [u8],
) -> Result<(), Refusal>
    ensures both_ends_promise { BothEndsPromise level seed.now message.now (length sent.old) (length opened.old)
        (answer result) sent.new opened.new }
    ensures agree { answer result ≡ 0 → Agree (level_of level) seed.now message.now sent.new opened.new }
{
    let done = run(level, seed, message, sent, opened);
    if done.is_err() {
        zero(sent);
        zero(opened);
    }
    done
}
