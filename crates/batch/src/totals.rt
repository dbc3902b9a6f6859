// The totals of the triples counted, and how the count goes on.
ghost use Rattle.std.specs.Prelude.{◌≡◌, ◌<◌};
ghost use Rattle.batch.specs.Promises.{Sound, goes_on};
ghost use Rattle.batch.specs.Report;
ghost use Rattle.batch.specs.inner.Steps.{Light};

use crate::contents::Gain;
use crate::stop::{Pending, Stop};

#[derive(Clone, Copy, Default)]
pub struct Totals {
    pub triples: u64,
    pub decoded: [u64; 6],
    pub undecoded: u64,
    pub replaced: u64,
}

#[derive(Clone, Copy)]
pub enum Going {
    On,
    Waiting(Pending),
    Ended,
    Stopped(Stop),
}

#[derive(Clone, Copy)]
pub struct Count {
    pub totals: Totals,
    pub going: Going,
}

pub fn added(totals: Totals, gain: Gain) -> Totals
    requires fact_1 { Sound totals }
    requires fact_2 { totals.triples < Report.most_triples }
    requires fact_3 { Light gain }
    ensures { result ≡ Report.added totals gain }
{
    let mut sum = totals;
    sum.triples += 1;
    sum.replaced += gain.replaced as u64;
    match gain.rounds {
        Some(k) => sum.decoded[k] += 1,
        None => sum.undecoded += 1,
    }
    sum
}

// Whether more bytes are asked for.
#[tactic(auto, unfolding(crate::specs::Promises::goes_on))]
pub fn goes_on(count: Count) -> bool
    ensures { result ≡ goes_on count }
{
    matches!(count.going, Going::On | Going::Waiting(_))
}
