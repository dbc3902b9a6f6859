// The sampler: as many positions as are asked for, no two of them equal, from one 32-bit word each.
ghost use Rattle.std.specs.Prelude.{◌≡◌, [], ◌∷◌, ◌++◌, ◌*◌, ◌≤◌, ◌<◌, length};
ghost use Rattle.ring.specs.Polynomials;
ghost use Rattle.ring.specs.Polynomials.{bit};
ghost use Rattle.exchange.specs.Sampler;
ghost use Rattle.exchange.specs.Sampler.{appended};
ghost use Rattle.ring.specs.Bytes.{numbers};

use ring::little_endian;

// All of the list is looked at, wherever the position is found.
fn listed(pos: u32, list: &[u32]) -> bool
    ensures { result ≡ Polynomials.listed pos list.now }
{
    let mut found = false;
    for k in 0..list.len() {
        found = found | (pos == list[k]);
    }
    found
}

fn candidate(len: u32, i: u32, word: u32) -> u32
    requires { i < len }
    ensures { result ≡ Sampler.candidate len i word }
{
    i + ((len - i) as u64 * (word as u64) / 4294967296) as u32
}

// A position, and 1 if it stands for one that was listed already, else 0.
#[derive(Drop)]
struct Choice {
    position: u32,
    replaced: u32,
}

// The two values are selected in the compiled code, without a branch, which another form might bring.
fn chosen(i: u32, pos: u32, list: &[u32]) -> Choice
    ensures { (list.now ++ (result.position ∷ []) ≡ appended i pos list.now)
        × (result.replaced ≡ bit (Polynomials.listed pos list.now)) × (result.replaced ≤ 1) }
{
    if listed(pos, list) {
        Choice {
            position: i,
            replaced: 1,
        }
    } else {
        Choice {
            position: pos,
            replaced: 0,
        }
    }
}

// The word of step i is the i-th of the stream, and the steps go down: the first position listed is from the last word.
// Gives how many positions were replaced.
pub fn sample(len: u32, stream: &[u8], list: &mut [u32]) -> u32
    requires { (4 * length list.old ≤ length stream.now) × (length list.old ≤ len) }
    ensures { (list.new ≡ Sampler.sample len (length list.old) (numbers 4 (length list.old) stream.now))
        × (result ≡ Sampler.replaced len (length list.old) (numbers 4 (length list.old) stream.now)) }
{
    let mut count = 0;
    for done in 0..list.len() {
        let i = list.len() - 1 - done;
        let pos = candidate(len, i as u32, little_endian::four(stream, 4 * i));
        let choice = chosen(i as u32, pos, &list[..done]);
        list[done] = choice.position;
        count += choice.replaced;
    }
    count
}
