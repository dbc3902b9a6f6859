// The same decoder on the bench, where time may tell of the key: no round follows one that leaves no residual.
ghost use Rattle.std.specs.Prelude.{◌≡◌};
ghost use Rattle.hashing.specs.Lists.{bits};
ghost use Rattle.ring.specs.Levels.{level_of};
ghost use Rattle.ring.specs.Polynomials.{InRing, weight};
ghost use Rattle.exchange.specs.decoder.Decoder;
ghost use Rattle.exchange.specs.decoder.Stopping.{fewest};
ghost use Rattle.exchange.specs.inner.Working.{key_of, Good, pair_of, Carried};

use crate::decoder::halves::nothing;
use crate::decoder::rounds::{Found, ROUNDS, State, kept, ones, step};
use crate::decoder::rows::Rows;
use crate::halves::Key;
use ring::WORDS;

// What the rounds left where they stopped, its weight, and how many were done.
#[derive(Drop)]
pub struct Stopped {
    pub state: State,
    pub left: usize,
    pub rounds: usize,
}

// Rounds until the residual is gone, five at most.
fn until_gone(level: u32, key: Key, s: [u64; WORDS]) -> Stopped
    requires fact_1 { Good (level_of level) key }
    requires fact_2 { InRing (level_of level).r (bits 64 s) }
    ensures { Carried (level_of level) (key_of (level_of level) key) (bits 64 s) result.state
        × (pair_of result.state.e ≡ Decoder.bgf (level_of level) (key_of (level_of level) key) (bits 64 s))
        × (result.left ≡ weight (level_of level).r (bits 64 result.state.x))
        × (result.rounds ≡ fewest (level_of level) (key_of (level_of level) key) (bits 64 s)) }
{
    let mut rows = Rows::blank();
    let mut state = State { x: s, e: nothing() };
    let mut left = ones(level, s);
    for i in 0..ROUNDS {
        if left == 0 {
            return Stopped {
                state,
                left,
                rounds: i,
            };
        }
        state = step(level, key, s, state, i, &mut rows);
        left = ones(level, state.x);
    }
    Stopped {
        state,
        left,
        rounds: ROUNDS,
    }
}

#[derive(Drop)]
pub struct Early {
    pub found: Found,
    pub rounds: usize,
}

// What `find` finds, and how many rounds it took.
pub fn find_early(level: u32, key: Key, s: [u64; WORDS]) -> Early
    requires fact_1 { Good (level_of level) key }
    requires fact_2 { InRing (level_of level).r (bits 64 s) }
    ensures { (result.found.failed ≡ Decoder.failed Decoder.bgf (level_of level) (key_of (level_of level) key) (bits 64 s))
        × (pair_of result.found.error ≡ Decoder.found Decoder.bgf (level_of level) (key_of (level_of level) key) (bits 64 s))
        × (result.rounds ≡ fewest (level_of level) (key_of (level_of level) key) (bits 64 s)) }
{
    let at = until_gone(level, key, s);
    let state = at.state;
    Early {
        found: Found {
            failed: 0 < at.left,
            error: kept(level, at.left, state.e),
        },
        rounds: at.rounds,
    }
}
