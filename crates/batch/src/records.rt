// Records that must come in turn.
ghost use Rattle.std.specs.Prelude.{◌≡◌, ◌≤◌, length};
ghost use Rattle.batch.specs.Triples;

use crate::stop::Stop;
use exchange::record;

// What is the first fault of a run, and where its record begins.
#[derive(Clone, Copy)]
pub struct Fault {
    pub stop: Stop,
    pub from: usize,
}

// Where the record that must come at byte `at` ends.
fn next(thing: u32, level: u32, bytes: &[u8], at: usize) -> Result<usize, Stop>
    requires { at ≤ length bytes.now }
    ensures { result ≡ Triples.turn thing level bytes.now at }
{
    if bytes.len() == at {
        return Err(Stop::OutOfTurn);
    }
    let line = record::line_at(bytes, at);
    let found = line.reading?;
    if (found.kind.thing.number() != thing) | (found.kind.level != level) {
        return Err(Stop::OutOfTurn);
    }
    Ok(line.next)
}

// Where the records end. A thing may be any number: one of no thing is never in turn.
pub fn in_turn(things: &[u32], level: u32, bytes: &[u8]) -> Result<usize, Fault>
    ensures { result ≡ Triples.turns things.now level bytes.now 0 }
{
    let mut at = 0;
    for &thing in things {
        // By map_err and `?` the proof does not close: a closure's contract does not tell which stop it was given.
        match next(thing, level, bytes, at) {
            Ok(end) => at = end,
            Err(stop) => return Err(Fault { stop, from: at }),
        }
    }
    Ok(at)
}
