// Lists the records of standard input, at most 65,536 bytes of it: a line for each record up to the end or the first
// refusal.
#![tactic(auto)]

use exchange::record;
use exchange::record::{Line, Numbers};
use lines::read_full;
use std::io;
use std::io::Write;

// Ordinal, answer, level, thing, body bytes.
fn print_line(out: &mut impl Write, ordinal: u64, line: &Line) -> io::Result<()> {
    let Numbers {
        answer,
        level,
        thing,
        body,
    } = Numbers::of(line.reading);
    writeln!(out, "{ordinal} {answer} {level} {thing} {body}")
}

fn list(out: &mut impl Write, bytes: &[u8]) -> io::Result<()> {
    writeln!(out, "records")?;
    let mut at = 0;
    let mut lines = 0;
    // Where the next record begins is told by the line before it.
    while at < bytes.len() {
        let line = record::line_at(bytes, at);
        lines += 1;
        print_line(out, lines, &line)?;
        at = line.next;
    }
    writeln!(out, "end {lines}")
}

fn main(rt: HostRuntime) -> io::Result<()> {
    let mut buffer = [0u8; 65536];
    let n = read_full(&mut rt.reader(), &mut buffer)?;
    list(&mut io::writer(&rt), &buffer[..n])
}
