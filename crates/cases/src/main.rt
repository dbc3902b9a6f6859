// Every public entry, driven from outside: standard input is a sequence of cases in the format of docs/CASES.md, and
// each gives a line with its answer and all that its outputs then hold.
#![tactic(auto)]

mod buffer;
mod call;
mod case;
mod entry;

use lines::{Fault, Line, read_byte};
use std::io;
use std::io::Write;

// A run has at most 65,536 cases.
fn main(rt: HostRuntime) -> io::Result<()> {
    let mut input = rt.reader();
    let mut out = Line::new(io::writer(&rt));
    let mut answered = 0u64;
    for ordinal in 1..=65536u64 {
        let Some(entry) = read_byte(&mut input)? else {
            break;
        };
        match case::answer(&mut input, &mut out, ordinal, entry) {
            Ok(()) => answered = ordinal,
            Err(Fault::Io(error)) => return Err(error),
            Err(Fault::Bad) => {
                writeln!(out, "bad case {ordinal}")?;
                break;
            }
        }
    }
    writeln!(out, "end {answered}")?;
    out.flush()
}
