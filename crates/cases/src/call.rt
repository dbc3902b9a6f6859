// The entries, called: for each, what its answer and its numbers are.
ghost use Rattle.std.specs.Prelude.{◌≤◌, length};

use crate::buffer::words;
use crate::case::Case;
use crate::entry::Entry;
use arrayvec::ArrayVec;
use exchange::record::Numbers;
use exchange::{FairCounts, KeyCounts};
use hashing::Refusal;
use hashing::refusal::{answer, given};
use lines::Fault;

// An entry's answer, as the line prints it, and the numbers that it reports.
#[derive(Drop)]
pub struct Said {
    pub answer: u32,
    pub numbers: ArrayVec<u64, 4>,
}

fn told(answer: u32, reported: &[u64]) -> Said
    requires { length reported.now ≤ 4 }
{
    let mut numbers = ArrayVec::new();
    numbers.try_extend_from_slice(reported).unwrap();
    Said { answer, numbers }
}

fn silent(outcome: Result<(), Refusal>) -> Said {
    told(answer(outcome), &[])
}

fn inverse(level: u32, a: &[u8], out: &mut [u8]) -> Said {
    let inverted = ring::inverse(level, a, out);
    told(answer(inverted.answer), &[inverted.products as u64])
}

fn error_of(level: u32, message: &[u8], e0: &mut [u8], e1: &mut [u8]) -> Said {
    let outcome = exchange::error_of(level, message, e0, e1);
    told(answer(outcome), &[given(outcome) as u64])
}

fn make_key(level: u32, seed: &[u8], public_key: &mut [u8], private_key: &mut [u8]) -> Said {
    let outcome = exchange::make_key(level, seed, public_key, private_key);
    let counts = KeyCounts::given(outcome);
    told(
        answer(outcome),
        &[
            counts.used0 as u64,
            counts.passed0 as u64,
            counts.used1 as u64,
            counts.passed1 as u64,
        ],
    )
}

fn fair_polynomial(level: u32, bytes: &[u8], out: &mut [u8]) -> Result<Said, Fault> {
    let outcome = exchange::fair_polynomial(level, words(bytes)?.as_slice(), out);
    let counts = FairCounts::given(outcome);
    Ok(told(answer(outcome), &[counts.used as u64, counts.passed as u64]))
}

fn decode_early(
    level: u32,
    private_key: &[u8],
    syndrome: &[u8],
    e0: &mut [u8],
    e1: &mut [u8],
) -> Said {
    let decoded = exchange::decode_early(level, private_key, syndrome, e0, e1);
    told(answer(decoded.answer), &[decoded.rounds as u64])
}

fn accept_map(case: &Case, session_key: &[u8], bytes: &[u8], map: &mut [u8]) -> Said {
    let last = case.second;
    let outcome = maps::accept_map(case.level, session_key, case.first, bytes, map, last);
    told(answer(outcome), &[maps::kept(last, outcome) as u64])
}

fn read_record(bytes: &[u8]) -> Said {
    let Numbers {
        answer,
        level,
        thing,
        body,
    } = Numbers::of(exchange::read_record(bytes));
    told(answer, &[level as u64, thing as u64, body as u64])
}

pub fn call(
    case: &Case,
    a: &[u8],
    b: &[u8],
    out0: &mut [u8],
    out1: &mut [u8],
) -> Result<Said, Fault> {
    let level = case.level;
    Ok(match case.entry {
        Entry::Shake256 => {
            hashing::shake256(a, out0);
            silent(Ok(()))
        }
        Entry::Sha3_384 => silent(hashing::sha3_384(a, out0)),
        Entry::Product => silent(ring::product(level, a, b, out0)),
        Entry::Inverse => inverse(level, a, out0),
        Entry::ErrorOf => error_of(level, a, out0, out1),
        Entry::Decode => silent(exchange::decode(level, a, b, out0, out1)),
        Entry::MakeKey => make_key(level, a, out0, out1),
        Entry::Wrap => silent(exchange::wrap(level, a, b, out0, out1)),
        Entry::Open => silent(exchange::open(level, a, b, out0)),
        Entry::ReadRecord => read_record(a),
        Entry::Pack => silent(packing::pack(level, a, out0)),
        Entry::Unpack => silent(packing::unpack(level, a, out0)),
        Entry::FairPolynomial => fair_polynomial(level, a, out0)?,
        Entry::WriteMap => silent(maps::write_map(level, a, case.first, case.second, b, out0)),
        Entry::AcceptMap => accept_map(case, a, b, out0),
        Entry::DecodeEarly => decode_early(level, a, b, out0, out1),
        Entry::RotateKey => silent(service::rotate_key(level, case.first, a, out0)),
    })
}
