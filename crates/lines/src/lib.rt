// What the programs read and print: numbers of four bytes, and lines that are put together and written in one call.
//
// Each function is given the reader or the writer, and hands on its error. What is printed has no contract, `Line` and
// `put_hex`: the programs' lines are run and compared, and no proof speaks of them.
#![tactic(auto)]

ghost use Rattle.std.specs.Prelude.{◌≡◌, ◌<◌, ◌≤◌, [], ◌∷◌, length, take, IfOk, IfErr, IfSome, IfNone};
ghost use Rattle.std.specs.Int.{w32, to_le_bytes};
ghost use Rattle.std.specs.Io.KnownBytes.{Consumes, IsAtEnd};
ghost use Rattle.lines.specs.declared.Fault.TheVariants.{Bad, Io};

use arrayvec::ArrayVec;
use std::io;
use std::io::{Read, Write};

// How long a line may be for one call. In hex, two outputs of 16,384 bytes fill it.
const ROOM: usize = 65536;

// A writer, and in front of it the line under way, in fixed memory, which `flush` writes in one call. Where the next
// part does not fit, what is there is written first.
#[derive(Drop)]
pub struct Line<W: Write + Drop> {
    out: W,
    text: ArrayVec<u8, ROOM>,
}

impl<W: Write + Drop> Line<W> {
    pub fn new(out: W) -> Self {
        Line {
            out,
            text: ArrayVec::new(),
        }
    }
}

impl<W: Write + Drop> Write for Line<W> {
    fn write(&mut self, bytes: &[u8]) -> io::Result<usize> {
        if self.text.try_extend_from_slice(bytes).is_ok() {
            return Ok(bytes.len());
        }
        self.flush()?;
        self.out.write(bytes)
    }

    fn flush(&mut self) -> io::Result<()> {
        self.out.write_all(self.text.as_slice())?;
        self.text.clear();
        Ok(())
    }
}

fn digit(n: u8) -> u8
    requires { n < 16 }
{
    if n < 10 { b'0' + n } else { b'a' - 10 + n }
}

// How many bytes become digits before the writer takes them: a call for each byte costs more than its digits.
const PART: usize = 256;

// Lays the digits of the bytes at the front of the text, and gives how many they are.
fn lay(bytes: &[u8], text: &mut [u8; 2 * PART]) -> usize
    requires { length bytes.now ≤ 256 }
    ensures { result ≤ 512 }
{
    for (i, byte) in bytes.iter().enumerate() {
        text[2 * i] = digit(byte / 16);
        text[2 * i + 1] = digit(byte % 16);
    }
    2 * bytes.len()
}

pub fn put_hex(out: &mut impl Write, bytes: &[u8]) -> io::Result<()> {
    let mut text = [0; 2 * PART];
    for part in bytes.chunks(PART) {
        let n = lay(part, &mut text);
        out.write_all(&text[..n])?;
    }
    Ok(())
}

// Reads until the bytes are full or the input ends, and gives how many it put at their front: std's `read_exact` does
// not tell how many there were.
pub fn read_full<R: Read>(input: &mut R, bytes: &mut [u8]) -> io::Result<usize>
    ensures within { IfOk result (λ n. n ≤ length bytes.new) }
    ensures consumed { IfOk result (λ n. Consumes (R.remaining input.old) (R.remaining input.new) (take n bytes.new)) }
    ensures short { IfOk result (λ n. n < length bytes.new → IsAtEnd (R.remaining input.new)) }
{
    let mut done = 0;
    while done < bytes.len() {
        let n = input.read(&mut bytes[done..])?;
        if n == 0 {
            break;
        }
        done += n;
    }
    Ok(done)
}

// The next N bytes; none where the input ends before them.
fn read_array<const N: usize, R: Read>(input: &mut R) -> io::Result<Option<[u8; N]>>
    ensures consumed { IfOk result (λ all. IfSome all (Consumes (R.remaining input.old) (R.remaining input.new))) }
    ensures cut { IfOk result (λ all. IfNone all (IfSome (R.remaining input.old) (λ left. length left < N))) }
{
    let mut bytes = [0; N];
    let n = read_full(input, &mut bytes)?;
    Ok((n == N).then_some(bytes))
}

pub fn read_byte<R: Read>(input: &mut R) -> io::Result<Option<u8>>
    ensures consumed { IfOk result (λ next. IfSome next (λ byte.
        Consumes (R.remaining input.old) (R.remaining input.new) (byte ∷ []))) }
    ensures end { IfOk result (λ next. IfNone next (IsAtEnd (R.remaining input.old))) }
{
    Ok(read_array(input)?.map(u8::from_le_bytes))
}

// Why a part of the input gets no line: it is cut or wrong, or the system cannot read or write.
#[derive(Drop)]
pub enum Fault {
    Bad,
    Io(io::Error),
}

impl From<io::Error> for Fault {
    ghost from_gives = { λ error fault. fault ≡ Io error };

    fn from(error: io::Error) -> Fault {
        Fault::Io(error)
    }
}

// A number of four bytes, little-endian.
pub fn read_number<R: Read>(input: &mut R) -> Result<u32, Fault>
    ensures consumed { IfOk result (λ n. Consumes (R.remaining input.old) (R.remaining input.new) (to_le_bytes w32 n)) }
    ensures cut { IfErr result (λ fault. fault ≡ Bad → IfSome (R.remaining input.old) (λ left. length left < 4)) }
{
    let four = read_array(input)?;
    four.map(u32::from_le_bytes).ok_or(Fault::Bad)
}

// As many bytes as the buffer has.
pub fn read_all<R: Read>(input: &mut R, bytes: &mut [u8]) -> Result<(), Fault>
    ensures consumed { IfOk result (λ done. Consumes (R.remaining input.old) (R.remaining input.new) bytes.new) }
    ensures cut { IfErr result (λ fault. fault ≡ Bad
        → IfSome (R.remaining input.old) (λ left. length left < length bytes.new)) }
{
    if read_full(input, bytes)? < bytes.len() {
        return Err(Fault::Bad);
    }
    Ok(())
}
