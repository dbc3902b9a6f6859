// The buffers of a case, in fixed memory.
ghost use Rattle.std.specs.Prelude.{◌≡◌, true, ◌≤◌, IfOk, OnErr};

use arrayvec::ArrayVec;
use lines::{Fault, read_all, read_number};
use std::io::Read;

// "A buffer has at most 16,384 bytes".
const MOST: usize = 16384;

// Lent for a buffer, which takes as much of the front as it needs.
pub type Room = [u8; MOST];

pub fn blank() -> Room {
    [0; MOST]
}

// Entry 13 takes its input as numbers of four bytes each.
pub type Words = ArrayVec<u32, 4096>;

// The length of the next buffer; 0 for one that the entry has not.
fn size(input: &mut impl Read, is_there: bool) -> Result<usize, Fault>
    ensures most { IfOk result (λ n. n ≤ 16384) }
    ensures err { OnErr result (is_there ≡ true) }
{
    if !is_there {
        return Ok(0);
    }
    let n = read_number(input)? as usize;
    if MOST < n {
        return Err(Fault::Bad);
    }
    Ok(n)
}

// The front of the room that is lent for the next buffer, as long as that is.
fn part<'a>(
    input: &mut impl Read,
    is_there: bool,
    room: &'a mut Room,
) -> Result<&'a mut [u8], Fault> {
    let n = size(input, is_there)?;
    Ok(&mut room[..n])
}

// An input, or an output that is read before, as a stored map is.
pub fn read<'a>(
    input: &mut impl Read,
    is_there: bool,
    room: &'a mut Room,
) -> Result<&'a mut [u8], Fault> {
    let bytes = part(input, is_there, room)?;
    read_all(input, bytes)?;
    Ok(bytes)
}

// The bytes of words. A length that 4 does not divide is none, and then nothing more is read.
pub fn read_words<'a>(input: &mut impl Read, room: &'a mut Room) -> Result<&'a mut [u8], Fault> {
    let bytes = part(input, true, room)?;
    if bytes.len() % 4 != 0 {
        return Err(Fault::Bad);
    }
    read_all(input, bytes)?;
    Ok(bytes)
}

// An output before the call: a byte that a refusal forgets shows.
pub fn marked<'a>(
    input: &mut impl Read,
    is_there: bool,
    room: &'a mut Room,
) -> Result<&'a mut [u8], Fault> {
    let bytes = part(input, is_there, room)?;
    bytes.fill(0xa5);
    Ok(bytes)
}

// The words of bytes whose length 4 divides (`read_words`).
pub fn words(bytes: &[u8]) -> Result<Words, Fault> {
    let (fours, _) = bytes.as_chunks::<4>();
    let mut list = ArrayVec::new();
    list.extend(fours.iter().copied().map(u32::from_le_bytes))
        .map_err(|_| Fault::Bad)?;
    Ok(list)
}
