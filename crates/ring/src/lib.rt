// The ring of document 01: the level table, polynomials over words, product and inverse.
#![tactic(auto)]

mod even;
pub mod frame;
pub mod invert;
pub mod layout;
pub mod level;
pub mod little_endian;
pub mod multiply;
pub mod positions;
pub mod size;
pub mod sparse;
mod square;
pub mod times;
pub mod unpack;
pub mod words;

ghost use Rattle.std.specs.Prelude.{◌≡◌, Err, length, replicate};
ghost use Rattle.hashing.specs.Answers.{first_of};
ghost use Rattle.hashing.specs.Refusals.{answer};
ghost use Rattle.ring.specs.Promises.{product_reasons, ProductPromise, inverse_reasons, InversePromise, ProductsPromise};

use crate::layout::pad_set;
use hashing::Refusal;
use hashing::fill::zero;
pub use size::WORDS;

fn judge_product(level: u32, a: &[u8], b: &[u8], room: usize) -> Result<(), Refusal>
    ensures { answer result ≡ first_of (product_reasons level a.now b.now room) }
{
    if !level::known(level) {
        return Err(Refusal::UnknownLevel);
    }
    let n = size::polynomial(level);
    if (a.len() != n) | (b.len() != n) | (room != n) {
        return Err(Refusal::WrongLength);
    }
    let r = size::block(level);
    if pad_set(r, a) | pad_set(r, b) {
        return Err(Refusal::PadBit);
    }
    Ok(())
}

pub fn product(level: u32, a: &[u8], b: &[u8], out: &mut [u8]) -> Result<(), Refusal>
    ensures { ProductPromise level a.now b.now (length out.old) (answer result) out.new }
{
    if let Err(refusal) = judge_product(level, a, b, out.len()) {
        zero(out);
        return Err(refusal);
    }
    let r = size::block(level);
    words::store(multiply::multiply(r, words::load(a), words::load(b)), out);
    Ok(())
}

// The column of a product of a by itself: the same lengths and the same pads.
fn judge_inverse(level: u32, a: &[u8], room: usize) -> Result<(), Refusal>
    ensures { answer result ≡ first_of (inverse_reasons level a.now room) }
{
    judge_product(level, a, a, room)
}

// What `inverse` answers, and how many products of the chain it took.
#[derive(Drop)]
pub struct Inverted {
    pub answer: Result<(), Refusal>,
    pub products: u32,
}

// A refusal of `inverse`, after so many products.
fn refused(refusal: Refusal, products: u32, out: &mut [u8]) -> Inverted
    ensures { (result.answer ≡ Err refusal) × (result.products ≡ products) × (out.new ≡ replicate (length out.old) 0) }
{
    zero(out);
    Inverted {
        answer: Err(refusal),
        products,
    }
}

pub fn inverse(level: u32, a: &[u8], out: &mut [u8]) -> Inverted
    ensures inverse_promise { InversePromise level a.now (length out.old) (answer result.answer) out.new }
    ensures products_promise { ProductsPromise level a.now (length out.old) result.products }
{
    if let Err(refusal) = judge_inverse(level, a, out.len()) {
        return refused(refusal, 0, out);
    }
    let r = size::block(level);
    let x = words::load(a);
    let found = invert::invert(r, x, words::weight(x, r / 64 + 1));
    let Some(value) = found.value else {
        return refused(Refusal::NoInverse, found.products, out);
    };
    words::store(value, out);
    Inverted {
        answer: Ok(()),
        products: found.products,
    }
}
