// The numbers of a level that lengths and loops go by.
ghost use Rattle.std.specs.Prelude.{◌≡◌};
ghost use Rattle.ring.specs.Levels.{level_of, poly_bytes, position_bits, ciphertext_bytes, private_bytes};

use crate::invert::top;
use crate::level::level_of;

// The largest sizes of the table: a polynomial's words of 64 bits, the weight of a half of a private key, that of an
// error.
pub const WORDS: usize = 641;

pub const MOST_D: usize = 137;

pub const MOST_T: usize = 264;

pub const MESSAGE: usize = 32;

pub const SEED: usize = 64;

// What follows the positions of a private key: sigma, and the digest of the public key.
pub const TAIL: usize = MESSAGE + 32;

// A field of the row each: one function over them would be no shorter at a call.
pub fn block(level: u32) -> usize
    ensures { result ≡ (level_of level).r }
{
    level_of(level).r
}

pub fn key_weight(level: u32) -> usize
    ensures { result ≡ (level_of level).d }
{
    level_of(level).d
}

pub fn error_weight(level: u32) -> usize
    ensures { result ≡ (level_of level).t }
{
    level_of(level).t
}

pub fn polynomial(level: u32) -> usize
    ensures { result ≡ poly_bytes (level_of level) }
{
    (block(level) + 7) / 8
}

// The bits of a position: the binary digits of r.
pub fn position_bits(level: u32) -> usize
    ensures { result ≡ position_bits (level_of level).r }
{
    top(block(level)) + 1
}

pub fn ciphertext(level: u32) -> usize
    ensures { result ≡ ciphertext_bytes (level_of level) }
{
    polynomial(level) + MESSAGE
}

pub fn private_key(level: u32) -> usize
    ensures { result ≡ private_bytes (level_of level) }
{
    let d = key_weight(level);
    2 * (d + d) + TAIL
}
