// The bench report of the records on standard input: exact totals of the triples, and what stopped the run.
#![tactic(auto)]

ghost use Rattle.batch.specs.Promises.{Sound};

use batch::totals::{Count, Going, Totals, goes_on};
use lines::read_full;
use std::io;
use std::io::Write;

fn print_totals(out: &mut impl Write, totals: Totals) -> io::Result<()> {
    writeln!(out, "triples {}", totals.triples)?;
    for (rounds, n) in totals.decoded.iter().enumerate() {
        writeln!(out, "decoded {rounds} {n}")?;
    }
    writeln!(out, "undecoded {}", totals.undecoded)?;
    writeln!(out, "replaced {}", totals.replaced)
}

fn print_stop(out: &mut impl Write, count: Count) -> io::Result<()>
    requires { Sound count.totals }
{
    if let Going::Stopped(stop) = count.going {
        let triple = count.totals.triples + 1;
        writeln!(out, "stop {triple} {}", stop.number())?;
    }
    Ok(())
}

fn main(rt: HostRuntime) -> io::Result<()> {
    let mut input = rt.reader();
    let mut out = io::writer(&rt);
    let mut window = [0u8; 65536];
    let mut count = batch::start();
    let mut have = 0;
    while goes_on(count) {
        let more = read_full(&mut input, &mut window[have..])?;
        let all = have + more;
        let turned = batch::turn(count, &mut window, all, all < 65536);
        count = turned.count;
        have = turned.have;
    }
    print_totals(&mut out, count.totals)?;
    print_stop(&mut out, count)
}
