// L, K, D and f: 32 bytes of SHA3-384 over a slice, or over two, one after the other.
ghost use Rattle.std.specs.Prelude.{◌≡◌, ◌++◌, take};
ghost use Rattle.hashing.specs.Sponge.{sha3_384};
ghost use Rattle.exchange.specs.Scheme;
ghost use Rattle.exchange.specs.Scheme.{key_digest};

use hashing::sponge;

pub fn digest32(a: &[u8], b: &[u8]) -> [u8; 32]
    ensures { result ≡ take 32 (sha3_384 (a.now ++ b.now)) }
{
    let first = sponge::absorb(sponge::SHA3_384_RATE, sponge::start(), a);
    let both = sponge::absorb(sponge::SHA3_384_RATE, first, b);
    let soaked = sponge::finish(sponge::SHA3_384_RATE, sponge::SHA3_384_SUFFIX, both);
    let mut out = [0; 32];
    sponge::squeeze(sponge::SHA3_384_RATE, soaked, &mut out);
    out
}

// D, the digest of a public key.
pub fn key_digest(public_key: &[u8]) -> [u8; 32]
    ensures { result ≡ key_digest public_key.now }
{
    let mut out = [0; 32];
    sponge::digest(
        sponge::SHA3_384_RATE,
        sponge::SHA3_384_SUFFIX,
        public_key,
        &mut out,
    );
    out
}

// f(m, h): the message, tied to the public key by its digest.
pub fn bound(digest: &[u8], message: &[u8]) -> [u8; 32]
    ensures { result ≡ Scheme.bound digest.now message.now }
{
    digest32(message, digest)
}
