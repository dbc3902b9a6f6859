// One step of a count, over the bytes at hand: a triple, or the end, or some of the bytes that are waited for.
ghost use Rattle.std.specs.Prelude.{◌≡◌, List, ℕ, ◌<◌, length, Ok};
ghost use Rattle.batch.specs.Promises.{Sound};
ghost use Rattle.batch.specs.Report;
ghost use Rattle.batch.specs.declared.contents.Gain.{Gain};
ghost use Rattle.batch.specs.inner.Steps.{Light, One, Steps, by_judged};
ghost use Rattle.batch.specs.inner.Windows.{Suffices};

use crate::contents::Gain;
use crate::stop::{Pending, Stop};
use crate::totals::{Count, Going, Totals, added, goes_on};
use crate::triple::{Look, look_at};
use hashing::refusal::Refusal;

// As many triples are counted at most.
pub const MOST_TRIPLES: u64 = 4294967296;

// With so many bytes at hand, no triple needs more to be judged.
pub const ENOUGH: usize = 16384;

// The count after a step, and how many bytes it used.
#[derive(Drop)]
pub struct Step {
    pub count: Count,
    pub used: usize,
}

fn step_judged(totals: Totals, judged: Result<Gain, Stop>) -> Step
    requires fact_1 { Sound totals }
    requires fact_2 { totals.triples < Report.most_triples }
    requires fact_3 { ((gain : Gain) → judged ≡ Ok gain → Light gain) }
    ensures { result ≡ by_judged totals judged }
{
    match judged {
        Ok(gain) => Step {
            count: Count {
                totals: added(totals, gain),
                going: Going::On,
            },
            used: gain.used,
        },
        Err(stop) => Step {
            count: Count {
                totals,
                going: Going::Stopped(stop),
            },
            used: 0,
        },
    }
}

fn step_on(totals: Totals, bytes: &[u8], ended: bool) -> Step
    requires fact_1 { Sound totals }
    requires fact_2 { Suffices (length bytes.now) ended }
    ensures { One (Report.over totals Going.On) bytes.now ended result }
{
    if totals.triples == MOST_TRIPLES || bytes.is_empty() {
        return Step {
            count: Count {
                totals,
                going: Going::Ended,
            },
            used: 0,
        };
    }
    match look_at(bytes, ended) {
        Look::Known(judged) => step_judged(totals, judged),
        Look::Waits(wait) => Step {
            count: Count {
                totals,
                going: Going::Waiting(wait),
            },
            used: bytes.len(),
        },
    }
}

fn step_waiting(totals: Totals, wait: Pending, have: usize, ended: bool) -> Step
    requires fact_1 { Sound totals }
    requires fact_2 { Suffices have ended }
    ensures { (bytes : List ℕ) → length bytes ≡ have → One (Report.over totals (Going.Waiting wait)) bytes ended result }
{
    let going = if wait.missing <= have as u64 {
        Going::Stopped(wait.stop)
    } else if ended {
        Going::Stopped(Stop::Refused(Refusal::CutRecord))
    } else {
        Going::Waiting(Pending {
            missing: wait.missing - have as u64,
            stop: wait.stop,
        })
    };
    Step {
        count: Count { totals, going },
        used: have,
    }
}

fn one(count: Count, bytes: &[u8], ended: bool) -> Step
    requires fact_1 { Sound count.totals }
    requires fact_2 { Suffices (length bytes.now) ended }
    ensures { One count bytes.now ended result }
{
    match count.going {
        Going::On => step_on(count.totals, bytes, ended),
        Going::Waiting(wait) => step_waiting(count.totals, wait, bytes.len(), ended),
        Going::Ended | Going::Stopped(_) => Step { count, used: 0 },
    }
}

// Steps while the bytes at hand are enough, or all that come. Each tells how many bytes it used: no `for` counts them.
pub fn steps(count: Count, bytes: &[u8], ended: bool) -> Step
    requires { Sound count.totals }
    ensures { Steps count bytes.now ended result }
{
    let mut reached = count;
    let mut at = 0;
    while goes_on(reached) & (ended | (ENOUGH <= bytes.len() - at)) {
        let done = one(reached, &bytes[at..], ended);
        reached = done.count;
        at += done.used;
    }
    Step {
        count: reached,
        used: at,
    }
}
