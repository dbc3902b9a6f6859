// One case: its numbers and buffers are read one after the other, the entry is called, and the line is printed.
use crate::buffer::{blank, marked, read, read_words};
use crate::call::{Said, call};
use crate::entry::Entry;
use lines::{Fault, put_hex, read_number};
use std::io;
use std::io::{Read, Write};

// What stands before the buffers, with zeros for the numbers that an entry has not.
#[derive(Clone, Copy)]
pub struct Case {
    pub entry: Entry,
    pub level: u32,
    pub first: u32,
    pub second: u32,
}

// A number of a case; 0 for one that the entry has not.
fn number_in(input: &mut impl Read, is_there: bool) -> Result<u32, Fault> {
    if !is_there {
        return Ok(0);
    }
    read_number(input)
}

impl Case {
    // The case whose first byte is the entry's number. The level is read first: it stands behind an unknown number too.
    fn read(input: &mut impl Read, entry: u8) -> Result<Case, Fault> {
        let level = read_number(input)?;
        let entry = Entry::try_from(entry)?;
        Ok(Case {
            entry,
            level,
            first: number_in(input, entry.numbers() > 0)?,
            second: number_in(input, entry.numbers() == 2)?,
        })
    }
}

fn put_out(out: &mut impl Write, bytes: &[u8]) -> io::Result<()> {
    if bytes.is_empty() {
        return out.write_all(b" -");
    }
    out.write_all(b" ")?;
    put_hex(out, bytes)
}

// The answer, what the outputs hold, and the numbers.
fn put_line(
    out: &mut impl Write,
    ordinal: u64,
    entry: Entry,
    said: &Said,
    out0: &[u8],
    out1: &[u8],
) -> io::Result<()> {
    write!(out, "{ordinal} {} {}", entry.number(), said.answer)?;
    if entry.outputs() > 0 {
        put_out(out, out0)?;
    }
    if entry.outputs() == 2 {
        put_out(out, out1)?;
    }
    for number in said.numbers.as_slice() {
        write!(out, " {number}")?;
    }
    writeln!(out)?;
    out.flush()
}

// Nothing is written of a case that is cut or none.
pub fn answer(
    input: &mut impl Read,
    out: &mut impl Write,
    ordinal: u64,
    entry: u8,
) -> Result<(), Fault> {
    // Before the first read: behind one, arrays are zeroed twice. An ArrayVec for each would be moved besides.
    let mut room_a = blank();
    let mut room_b = blank();
    let mut room0 = blank();
    let mut room1 = blank();
    let case = Case::read(input, entry)?;
    let entry = case.entry;
    let a = match entry {
        Entry::FairPolynomial => read_words(input, &mut room_a)?,
        _ => read(input, true, &mut room_a)?,
    };
    let b = read(input, entry.inputs() == 2, &mut room_b)?;
    let out0 = match entry {
        Entry::AcceptMap => read(input, true, &mut room0)?,
        _ => marked(input, entry.outputs() > 0, &mut room0)?,
    };
    let out1 = marked(input, entry.outputs() == 2, &mut room1)?;
    let said = call(&case, a, b, out0, out1)?;
    put_line(out, ordinal, entry, &said, out0, out1)?;
    Ok(())
}
