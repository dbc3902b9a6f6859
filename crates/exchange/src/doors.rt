// The doors that `exchange_c` offers to C, on a level and byte slices, with answers in numbers as C reads them. A door
// keeps its entry's promise, and that of key making has a report besides.
ghost use Rattle.std.specs.Prelude.{◌≡◌, ◌++◌, length, OnOk};
ghost use Rattle.hashing.specs.Answers.{first_of};
ghost use Rattle.hashing.specs.Refusals.{answer};
ghost use Rattle.ring.specs.Bytes.{bytes_of};
ghost use Rattle.ring.specs.Levels.{level_of};
ghost use Rattle.exchange.specs.Promises.{work_reasons, counts_of, WrapPromise, OpenPromise};
ghost use Rattle.exchange.specs.Scheme.{public_of, private_of, key_counts};
ghost use Rattle.exchange.specs.Doors.{four_bytes, report_of, report_bytes, making_door_reasons, MakeKeyDoorPromise};

use crate::keys::KeyCounts;
use crate::{bytes, judge, keys};
use hashing::Refusal;
use hashing::fill::zero;
use hashing::refusal::answer;

#[tactic(auto, unfolding(crate::specs::Doors::four_bytes))]
pub fn four_bytes(n: u32) -> [u8; 4]
    ensures { result ≡ four_bytes n }
{
    n.to_le_bytes()
}

fn write_two(number0: u32, number1: u32, out: &mut [u8])
    requires { length out.old ≡ 8 }
    ensures { out.new ≡ four_bytes number0 ++ four_bytes number1 }
{
    let b0 = four_bytes(number0);
    let b1 = four_bytes(number1);
    bytes::copy(&b0, &mut out[..4]);
    bytes::copy(&b1, &mut out[4..]);
}

fn write_report(counts: KeyCounts, report: &mut [u8])
    requires { length report.old ≡ report_bytes }
    ensures { report.new ≡ report_of (counts_of counts) }
{
    write_two(counts.used0, counts.passed0, &mut report[..8]);
    write_two(counts.used1, counts.passed1, &mut report[8..]);
}

// The keys and the report, where nothing is refused.
fn make_key(
    level: u32,
    seed: &[u8],
    public_key: &mut [u8],
    private_key: &mut [u8],
    report: &mut [u8],
) -> Result<(), Refusal>
    ensures answered { answer result ≡ first_of (making_door_reasons level seed.now (length public_key.old)
        (length private_key.old) (length report.old) ++ work_reasons (level_of level) seed.now) }
    ensures made { OnOk result ((public_key.new ≡ bytes_of (level_of level).r (public_of (level_of level) seed.now))
        × (private_key.new ≡ private_of (level_of level) seed.now)
        × (report.new ≡ report_of (key_counts (level_of level) seed.now))) }
{
    judge::making_door(
        level,
        seed,
        public_key.len(),
        private_key.len(),
        report.len(),
    )?;
    write_report(keys::judged(level, seed, public_key, private_key)?, report);
    Ok(())
}

pub fn bike_make_key(
    level: u32,
    seed: &[u8],
    public_key: &mut [u8],
    private_key: &mut [u8],
    report: &mut [u8],
) -> u32
    ensures { MakeKeyDoorPromise level seed.now (length public_key.old) (length private_key.old)
        (length report.old) result public_key.new private_key.new report.new }
{
    let made = make_key(level, seed, public_key, private_key, report);
    if made.is_err() {
        zero(public_key);
        zero(private_key);
        zero(report);
    }
    answer(made)
}

pub fn bike_wrap(
    level: u32,
    public_key: &[u8],
    message: &[u8],
    ciphertext: &mut [u8],
    session_key: &mut [u8],
) -> u32
    ensures { WrapPromise level public_key.now message.now (length ciphertext.old)
        (length session_key.old) result ciphertext.new session_key.new }
{
    answer(crate::wrap(level, public_key, message, ciphertext, session_key))
}

pub fn bike_open(level: u32, private_key: &[u8], ciphertext: &[u8], session_key: &mut [u8]) -> u32
    ensures { OpenPromise level private_key.now ciphertext.now (length session_key.old)
        result session_key.new }
{
    answer(crate::open(level, private_key, ciphertext, session_key))
}
