// Document 02, CR 8: what the triples of a file add up to, counted from a window that is moved along the file.
#![tactic(auto)]

pub mod contents;
pub mod records;
pub mod steps;
pub mod stop;
pub mod totals;
pub mod triple;

ghost use Rattle.std.specs.Prelude.{◌≡◌};
ghost use Rattle.batch.specs.Promises.{Sound, Turns};
ghost use Rattle.batch.specs.Report;

use steps::steps;
use totals::{Count, Going, Totals};

// What it makes of all bytes is their report.
pub fn start() -> Count
    ensures fact_1 { result ≡ Report.over Report.none Going.On }
    ensures fact_2 { Sound result.totals }
{
    Count {
        totals: Totals::default(),
        going: Going::On,
    }
}

// The count after a turn, and how many bytes stand at the front of the window for the next one.
#[derive(Drop)]
pub struct Turned {
    pub count: Count,
    pub have: usize,
}

// Counts the triples at the front of the first `have` bytes, and moves the rest to the front. `ended`: no more come.
// `have` stands beside the window, since what is read next goes behind the rest.
// A count is what `start` and the turns give. That it is sound is asked, and no ghost field of Totals, since `added` of
// specs/Report.antt adds to any totals.
pub fn turn(count: Count, window: &mut [u8], have: usize, ended: bool) -> Turned
    requires { Sound count.totals }
    ensures { Turns count window.old have ended window.new result }
{
    let end = have.min(window.len());
    let done = steps(count, &window[..end], ended);
    window.copy_within(done.used..end, 0);
    Turned {
        count: done.count,
        have: end - done.used,
    }
}
