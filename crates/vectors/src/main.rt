// The published vectors of SHAKE256, SHA3-384 and KMAC256, through the proved library: a digest in hex a line.
//
// Standard input is a sequence of vectors: the function (1 byte: 1 is SHAKE256, 2 is SHA3-384, 3 is
// KMAC256), the lengths of message and digest (4 bytes each, little-endian), then the message. With
// KMAC256 the lengths of key and customization follow those two, and both stand before the message.
// Anything else, or a vector that the input cuts short, ends the run with the line "bad vector".
#![tactic(auto)]

use lines::{Fault, Line, put_hex, read_all, read_byte, read_number};
use std::io;
use std::io::{Read, Write};

// A vector's function, and the lengths of the key and the customization that stand before its message.
#[derive(Clone, Copy)]
enum Function {
    Shake256,
    Sha3_384,
    Kmac256 { key: usize, custom: usize },
}

impl Function {
    // The function of a number, or none. Its own lengths follow the two that every vector has.
    fn read(input: &mut impl Read, number: u8) -> Result<Option<Function>, Fault> {
        Ok(match number {
            1 => Some(Function::Shake256),
            2 => Some(Function::Sha3_384),
            3 => Some(Function::Kmac256 {
                key: read_number(input)? as usize,
                custom: read_number(input)? as usize,
            }),
            _ => None,
        })
    }

    // How many bytes stand before the message.
    fn before(self) -> usize {
        match self {
            Function::Kmac256 { key, custom } => key.saturating_add(custom),
            _ => 0,
        }
    }
}

// KMAC256 is there for lengths below 8,192 bytes.
fn keyed(key: usize, custom: usize, all: &[u8], digest: &mut [u8]) -> Option<()> {
    if key >= 8192 || custom >= 8192 || digest.len() >= 8192 {
        return None;
    }
    let (key, rest) = all.split_at_checked(key)?;
    let (custom, message) = rest.split_at_checked(custom)?;
    hashing::kmac::kmac256(key, message, custom, digest);
    Some(())
}

// The digest of a vector's bytes, at the digest's length; none where the function refuses a length.
fn hash(function: Function, all: &[u8], digest: &mut [u8]) -> Option<()> {
    match function {
        Function::Shake256 => {
            hashing::shake256(all, digest);
            Some(())
        }
        Function::Sha3_384 => hashing::sha3_384(all, digest).ok(),
        Function::Kmac256 { key, custom } => keyed(key, custom, all, digest),
    }
}

// Reads what fills the first buffer, and writes its digest, which fills the other. A number of no function has a
// message too, and is found to be none after it.
fn answer(input: &mut impl Read, out: &mut impl Write, number: u8) -> Result<(), Fault> {
    // Before the first read: behind one, a function's arrays are zeroed twice.
    let mut all = [0; 65536];
    let mut digest = [0; 4096];
    let size = read_number(input)? as usize;
    let room = read_number(input)? as usize;
    let function = Function::read(input, number)?;
    let all = all
        .get_mut(..function.map_or(0, Function::before).saturating_add(size))
        .ok_or(Fault::Bad)?;
    let digest = digest.get_mut(..room).ok_or(Fault::Bad)?;
    read_all(input, all)?;
    let function = function.ok_or(Fault::Bad)?;
    hash(function, all, digest).ok_or(Fault::Bad)?;
    put_hex(out, digest)?;
    writeln!(out)?;
    out.flush()?;
    Ok(())
}

// A proved loop has to end, so it counts up to a number that no run reaches.
fn main(rt: HostRuntime) -> io::Result<()> {
    let mut input = rt.reader();
    let mut out = Line::new(io::writer(&rt));
    for _ in 0..u64::MAX {
        let Some(number) = read_byte(&mut input)? else {
            break;
        };
        match answer(&mut input, &mut out, number) {
            Ok(()) => {}
            Err(Fault::Io(error)) => return Err(error),
            Err(Fault::Bad) => {
                out.write_all(b"bad vector\n")?;
                break;
            }
        }
    }
    out.flush()
}
