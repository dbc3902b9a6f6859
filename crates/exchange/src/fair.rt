// Fair positions: a word, masked, is one if that is below r and not yet listed. Branches and time depend on which words
// are passed over: key making alone draws so, once for a seed, and reports how many these are.
ghost use Rattle.std.specs.Prelude.{◌≡◌, true, false, ℕ, ◌≤◌, ◌<◌, length, get_or, take, ◌++◌, IfOk};
ghost use Rattle.std.specs.Int.Bits.{bit_and};
ghost use Rattle.hashing.specs.Answers.{first_of};
ghost use Rattle.hashing.specs.Lists.{bits};
ghost use Rattle.hashing.specs.Refusals.{answer};
ghost use Rattle.ring.specs.Bytes.{bytes_of};
ghost use Rattle.ring.specs.Levels.{level_of};
ghost use Rattle.ring.specs.Polynomials.{support};
ghost use Rattle.exchange.specs.Fair;
ghost use Rattle.exchange.specs.Fair.{most_words, mask_of, taken, ran_out, drawn_for};
ghost use Rattle.exchange.specs.Promises.{fair_reasons, fair_work, fair_given};

use crate::{error, judge};
use hashing::Refusal;
use hashing::fill::filled;
use ring::size::MOST_D;
use ring::words::store;
use ring::{WORDS, size};

// The words that a polynomial may use.
pub const MOST_WORDS: usize = 512;

fn mask(level: u32) -> u32
    ensures { result ≡ mask_of (level_of level).r }
{
    (1 << size::position_bits(level)) - 1
}

// The place of the first word that is taken, from `from` on, or the words' length. Document 01 names the form: nested
// over words and listed positions, and left from inside by a label.
fn search(r: u32, mask: u32, words: &[u32], from: usize, list: &[u32]) -> usize
    requires { from ≤ length words.now }
    ensures { (from ≤ result) × (result ≤ length words.now)
        × ((j : ℕ) → from ≤ j → j < result → taken r (bit_and (get_or words.now j 0) mask) list.now ≡ false)
        × (result < length words.now → taken r (bit_and (get_or words.now result 0) mask) list.now ≡ true) }
{
    let mut i = from;
    'words: while i < words.len() {
        let pos = words[i] & mask;
        if pos < r {
            let mut k = 0;
            loop {
                if k == list.len() {
                    break 'words;
                }
                if pos == list[k] {
                    break;
                }
                k += 1;
            }
        }
        i += 1;
    }
    i
}

// How many positions are listed, and how many words were drawn for them.
#[derive(Drop)]
struct Count {
    listed: usize,
    used: usize,
}

// Fills the list from its front, until it is full or the words run out. A search says where the next turn begins, so no
// `for` counts them.
fn draw(r: u32, mask: u32, words: &[u32], list: &mut [u32]) -> Count
    ensures { (take result.listed list.new ≡ (Fair.draw r (length list.old) mask words.now).positions)
        × (result.used ≡ (Fair.draw r (length list.old) mask words.now).used)
        × (result.listed ≤ length list.old) }
{
    let mut listed = 0;
    let mut used = 0;
    while listed < list.len() {
        let at = search(r, mask, words, used, &list[..listed]);
        if at == words.len() {
            return Count { listed, used: at };
        }
        list[listed] = words[at] & mask;
        listed += 1;
        used = at + 1;
    }
    Count { listed, used }
}

#[derive(Drop)]
struct FairPositions {
    list: [u32; MOST_D],
    listed: usize,
    used: usize,
}

// The positions of one polynomial, at the front of the list.
fn positions(level: u32, words: &[u32]) -> FairPositions
    ensures { (take result.listed result.list ≡ (drawn_for (level_of level) words.now).positions)
        × (result.listed ≡ length (drawn_for (level_of level) words.now).positions)
        × (result.used ≡ (drawn_for (level_of level) words.now).used) }
{
    let d = size::key_weight(level);
    let mut list = [0; MOST_D];
    let count = draw(
        size::block(level) as u32,
        mask(level),
        words,
        &mut list[..d],
    );
    FairPositions {
        list,
        listed: count.listed,
        used: count.used,
    }
}

// The words that a polynomial used, and those of them that it passed over.
#[derive(Clone, Copy, Default)]
pub struct FairCounts {
    pub used: u32,
    pub passed: u32,
}

impl FairCounts {
    // What the drawing of one polynomial reports: zeros where it refuses.
    pub fn given(outcome: Result<FairCounts, Refusal>) -> FairCounts
        ensures { result ≡ fair_given outcome }
    {
        outcome.unwrap_or_default()
    }
}

// The flag stands beside the words: key making tells what was drawn where they ran out too.
#[derive(Drop)]
pub struct FairWords {
    pub words: [u64; WORDS],
    pub ran_out: bool,
    pub counts: FairCounts,
}

// One polynomial in words, and what it took; whether the words ran out before it had its weight.
pub fn polynomial(level: u32, words: &[u32]) -> FairWords
    requires { length words.now ≤ most_words }
    ensures { (bits 64 result.words ≡ support (drawn_for (level_of level) words.now).positions)
        × (result.ran_out ≡ ran_out (level_of level).d (drawn_for (level_of level) words.now))
        × (result.counts.used ≡ (drawn_for (level_of level) words.now).used)
        × (result.counts.passed ≡ (drawn_for (level_of level) words.now).passed) }
{
    let drawn = positions(level, words);
    let listed = drawn.listed;
    let mut placed: [u64; WORDS] = filled(0);
    error::place(&drawn.list[..listed], &mut placed);
    FairWords {
        words: placed,
        ran_out: listed < size::key_weight(level),
        counts: FairCounts {
            used: drawn.used as u32,
            passed: (drawn.used - listed) as u32,
        },
    }
}

// One polynomial's bytes, where nothing is refused.
pub fn write(level: u32, words: &[u32], out: &mut [u8]) -> Result<FairCounts, Refusal>
    ensures answered { answer result ≡ first_of (fair_reasons level (length words.now) (length out.old) ++ fair_work (level_of level) words.now) }
    ensures written { IfOk result (λ counts. (out.new ≡ bytes_of (level_of level).r (support (drawn_for (level_of level) words.now).positions))
        × (counts.used ≡ (drawn_for (level_of level) words.now).used)
        × (counts.passed ≡ (drawn_for (level_of level) words.now).passed)) }
{
    judge::fair(level, words.len(), out.len())?;
    let drawn = polynomial(level, words);
    if drawn.ran_out {
        return Err(Refusal::WordsRanOut);
    }
    store(drawn.words, out);
    Ok(drawn.counts)
}
