// What comes in two halves: a key, an error.
use ring::WORDS;
use ring::size::MOST_D;

#[derive(Clone, Copy)]
pub struct Halves<T> {
    pub half0: T,
    pub half1: T,
}

// Two polynomials, one for each half: an error, or marked bits.
pub type Pair = Halves<[u64; WORDS]>;

// The positions of both halves of a private key.
pub type Key = Halves<[u16; MOST_D]>;
