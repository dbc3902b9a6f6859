// Keccak-f[1600], FIPS 202 section 3, on 25 lanes: lane (x, y) is element 5y + x.
ghost use Rattle.std.specs.Prelude.{◌≡◌, true, ◌+◌, ◌-◌, ◌*◌, ◌/◌, ◌%◌, ◌^◌, ◌<◌, get_or};
ghost use Rattle.std.specs.Int.Bits.{bit_and, bit_xor};
ghost use Rattle.hashing.specs.Keccak.{lane, plane, rotate, complement, parity_c, effect_d, theta, offset, rho, pi, chi, round_constant, iota, keccak_f};
ghost use Rattle.hashing.specs.Lists.{tab};
ghost use Rattle.hashing.specs.inner.Inverted.{turned, chosen, exchanged, Lanes};
ghost use Rattle.hashing.specs.inner.Constants.{Steps, Begins, ConstantOf, Stands, Goes};

// 3.2.5, algorithm 5, one turn of step 3 on the register R as a number, bit i of which is R[i].
fn stepped(register: u64) -> u64
    requires { register < 256 }
    ensures { Steps 1 register result }
{
    let long = 2 * register; // a: R = 0 || R
    let last = long / 256; // R[8]
    (long ^ last ^ (last << 4) ^ (last << 5) ^ (last << 6)) % 256 // b to f
}

// Here and below the loops have few turns and start from known numbers, so that the compiler works all of them out.
fn seven_steps(before: u64) -> u64
    requires { before < 256 }
    ensures { Steps 7 before result }
{
    let mut register = before;
    for i in 0usize..7 {
        register = stepped(register);
    }
    register
}

// The register after the 7i steps that come before round i; step 2 of algorithm 5 begins at 10000000.
fn register(i: usize) -> u64
    ensures { Begins i result }
{
    let mut register = 1;
    for round in 0..i {
        register = seven_steps(register);
    }
    register
}

// R[0] as bit 2^j - 1 of a constant.
fn placed(register: u64, j: usize) -> u64
    requires { j < 7 }
    ensures { result ≡ register % 2 * 2 ^ (2 ^ j - 1) }
{
    (register % 2) << ((1usize << j) - 1)
}

// Algorithm 6, steps 2 and 3, for the round that begins with this register: bit 2^j - 1 is R[0] after j steps.
fn constant(begins: u64) -> u64
    requires { begins < 256 }
    ensures { ConstantOf begins result }
{
    let mut constant = 0;
    let mut register = begins;
    for j in 0..7 {
        constant += placed(register, j);
        register = stepped(register);
    }
    constant
}

// The constant of each round (3.2.5), written out: the compiler works out calls with known numbers, and no loop of 24.
fn round_constants() -> [u64; 24]
    ensures { result ≡ tab 24 round_constant }
{
    [
        constant(register(0)),
        constant(register(1)),
        constant(register(2)),
        constant(register(3)),
        constant(register(4)),
        constant(register(5)),
        constant(register(6)),
        constant(register(7)),
        constant(register(8)),
        constant(register(9)),
        constant(register(10)),
        constant(register(11)),
        constant(register(12)),
        constant(register(13)),
        constant(register(14)),
        constant(register(15)),
        constant(register(16)),
        constant(register(17)),
        constant(register(18)),
        constant(register(19)),
        constant(register(20)),
        constant(register(21)),
        constant(register(22)),
        constant(register(23)),
    ]
}

// 3.2.2, algorithm 2: where the walk over the lanes stands at step t, and how far its steps before t turn the lane
// that is asked for.
#[derive(Drop)]
struct Walk {
    x: usize,
    y: usize,
    t: u32,
    turn: u32,
}

// Step 3a turns the lane that is met by (t + 1)(t + 2) / 2; step 3b goes on from (x, y) to (y, (2x + 3y) mod 5).
fn walked(walk: Walk, place: usize) -> Walk
    requires fact_1 { Stands place walk }
    requires fact_2 { walk.t < 24 }
    ensures { Goes 1 place walk result }
{
    let x = walk.x;
    let y = walk.y;
    let t = walk.t;
    let next = (2 * x + 3 * y) % 5;
    if 5 * y + x == place {
        return Walk {
            x: y,
            y: next,
            t: t + 1,
            turn: (t + 1) * (t + 2) / 2 % 64,
        };
    }
    Walk {
        x: y,
        y: next,
        t: t + 1,
        turn: walk.turn,
    }
}

fn six_walked(before: Walk, place: usize) -> Walk
    requires fact_1 { Stands place before }
    requires fact_2 { before.t < 19 }
    ensures { Goes 6 place before result }
{
    let mut walk = before;
    for i in 0usize..6 {
        walk = walked(walk, place);
    }
    walk
}

// How far ρ turns a lane (3.2.2): the walk of 24 steps, which meets every lane but (0, 0).
fn turn(place: usize) -> u32
    requires { place < 25 }
    ensures { result ≡ offset (place % 5) (place / 5) }
{
    let mut walk = Walk {
        x: 1,
        y: 0,
        t: 0,
        turn: 0,
    };
    for i in 0usize..4 {
        walk = six_walked(walk, place);
    }
    walk.turn
}

// Two shifts to the right, since one by 64 is not allowed.
fn rotated(word: u64, n: u32) -> u64
    requires { n < 64 }
    ensures { result ≡ rotate n word }
{
    (word << n) | (word >> 1 >> (63 - n))
}

// θ, step 1: the parity of a column.
fn column(a: &[u64; 25], x: usize) -> u64
    requires { x < 5 }
    ensures { result ≡ parity_c a.now x }
{
    a[x] ^ a[5 + x] ^ a[10 + x] ^ a[15 + x] ^ a[20 + x]
}

fn columns(a: &[u64; 25]) -> [u64; 5]
    ensures { result ≡ tab 5 (parity_c a.now) }
{
    [
        column(a, 0),
        column(a, 1),
        column(a, 2),
        column(a, 3),
        column(a, 4),
    ]
}

// θ, step 2, from the five columns' parities.
fn effect(c: &[u64; 5], x: usize) -> u64
    requires { x < 5 }
    ensures { result ≡ bit_xor (get_or c.now ((x + 4) % 5) 0) (rotate 1 (get_or c.now ((x + 1) % 5) 0)) }
{
    c[(x + 4) % 5] ^ rotated(c[(x + 1) % 5], 1)
}

fn effects(a: &[u64; 25]) -> [u64; 5]
    ensures { result ≡ tab 5 (effect_d a.now) }
{
    let c = columns(a);
    [
        effect(&c, 0),
        effect(&c, 1),
        effect(&c, 2),
        effect(&c, 3),
        effect(&c, 4),
    ]
}

// What θ, ρ and π bring to (x, y): a lane is read once and is turned where it is read.
fn moved(a: &[u64; 25], d: &[u64; 5], x: usize, y: usize) -> u64
    requires fact_1 { d.now ≡ tab 5 (effect_d a.now) }
    requires fact_2 { (x < 5) × (y < 5) }
    ensures { result ≡ lane (pi (rho (theta a.now))) x y }
{
    let from = (x + 3 * y) % 5;
    let place = 5 * x + from;
    rotated(a[place] ^ d[from], turn(place))
}

fn moved_row(a: &[u64; 25], d: &[u64; 5], y: usize) -> [u64; 5]
    requires fact_1 { d.now ≡ tab 5 (effect_d a.now) }
    requires fact_2 { y < 5 }
    ensures { result ≡ plane (pi (rho (theta a.now))) y }
{
    [
        moved(a, d, 0, y),
        moved(a, d, 1, y),
        moved(a, d, 2, y),
        moved(a, d, 3, y),
        moved(a, d, 4, y),
    ]
}

// A lane with each bit exchanged. Six lanes are held so during the rounds (`Inverted`): then most rows of χ need one
// such exchange or none, and not five.
fn inverse(word: u64) -> u64
    ensures { result ≡ turned true word }
{
    !word
}

// χ on one lane where the second of its three is held inverted.
fn both(b: u64, c: u64, d: u64) -> u64
    ensures { result ≡ chosen b (turned true c) d }
{
    b ^ (c & d)
}

// χ on one lane where the third is held inverted, and so is what it gives.
fn either(b: u64, c: u64, d: u64) -> u64
    ensures { result ≡ turned true (chosen b c (turned true d)) }
{
    b ^ (c | d)
}

// χ, row by row, on what θ, ρ and π bring there: which lanes are then inverted follows from the six (`arriving`). The
// rows differ in that, so one function for the five would need a table of what to exchange, and branch on it.
fn row_0(a: &[u64; 25], d: &[u64; 5]) -> [u64; 5]
    requires fact_1 { d.now ≡ tab 5 (effect_d a.now) }
    requires fact_2 { Lanes a.now }
    ensures { result ≡ plane (exchanged (chi (pi (rho (theta (exchanged a.now)))))) 0 }
{
    let b = moved_row(a, d, 0);
    [
        either(b[0], b[1], b[2]),
        either(b[1], inverse(b[2]), b[3]),
        both(b[2], b[3], b[4]),
        either(b[3], b[4], b[0]),
        both(b[4], b[0], b[1]),
    ]
}

fn row_1(a: &[u64; 25], d: &[u64; 5]) -> [u64; 5]
    requires fact_1 { d.now ≡ tab 5 (effect_d a.now) }
    requires fact_2 { Lanes a.now }
    ensures { result ≡ plane (exchanged (chi (pi (rho (theta (exchanged a.now)))))) 1 }
{
    let b = moved_row(a, d, 1);
    [
        either(b[0], b[1], b[2]),
        both(b[1], b[2], b[3]),
        either(b[2], b[3], inverse(b[4])),
        either(b[3], b[4], b[0]),
        both(b[4], b[0], b[1]),
    ]
}

fn row_2(a: &[u64; 25], d: &[u64; 5]) -> [u64; 5]
    requires fact_1 { d.now ≡ tab 5 (effect_d a.now) }
    requires fact_2 { Lanes a.now }
    ensures { result ≡ plane (exchanged (chi (pi (rho (theta (exchanged a.now)))))) 2 }
{
    let b = moved_row(a, d, 2);
    [
        either(b[0], b[1], b[2]),
        both(b[1], b[2], b[3]),
        both(b[2], inverse(b[3]), b[4]),
        either(inverse(b[3]), b[4], b[0]),
        both(b[4], b[0], b[1]),
    ]
}

fn row_3(a: &[u64; 25], d: &[u64; 5]) -> [u64; 5]
    requires fact_1 { d.now ≡ tab 5 (effect_d a.now) }
    requires fact_2 { Lanes a.now }
    ensures { result ≡ plane (exchanged (chi (pi (rho (theta (exchanged a.now)))))) 3 }
{
    let b = moved_row(a, d, 3);
    [
        both(b[0], b[1], b[2]),
        either(b[1], b[2], b[3]),
        either(b[2], inverse(b[3]), b[4]),
        both(inverse(b[3]), b[4], b[0]),
        either(b[4], b[0], b[1]),
    ]
}

fn row_4(a: &[u64; 25], d: &[u64; 5]) -> [u64; 5]
    requires fact_1 { d.now ≡ tab 5 (effect_d a.now) }
    requires fact_2 { Lanes a.now }
    ensures { result ≡ plane (exchanged (chi (pi (rho (theta (exchanged a.now)))))) 4 }
{
    let b = moved_row(a, d, 4);
    [
        both(b[0], inverse(b[1]), b[2]),
        either(inverse(b[1]), b[2], b[3]),
        both(b[2], b[3], b[4]),
        either(b[3], b[4], b[0]),
        both(b[4], b[0], b[1]),
    ]
}

// A round: all lanes are read before any is written. ι changes the first.
fn round(a: [u64; 25], constant: u64) -> [u64; 25]
    ensures { result ≡ exchanged (iota (chi (pi (rho (theta (exchanged a))))) constant) }
{
    let d = effects(&a);
    let p = row_0(&a, &d);
    let q = row_1(&a, &d);
    let r = row_2(&a, &d);
    let s = row_3(&a, &d);
    let t = row_4(&a, &d);
    [
        p[0] ^ constant,
        p[1],
        p[2],
        p[3],
        p[4],
        q[0],
        q[1],
        q[2],
        q[3],
        q[4],
        r[0],
        r[1],
        r[2],
        r[3],
        r[4],
        s[0],
        s[1],
        s[2],
        s[3],
        s[4],
        t[0],
        t[1],
        t[2],
        t[3],
        t[4],
    ]
}

// The six lanes inverted, or back as they were.
fn exchanged(lanes: [u64; 25]) -> [u64; 25]
    ensures { result ≡ exchanged lanes }
{
    let mut a = lanes;
    a[1] = inverse(a[1]);
    a[2] = inverse(a[2]);
    a[8] = inverse(a[8]);
    a[12] = inverse(a[12]);
    a[17] = inverse(a[17]);
    a[20] = inverse(a[20]);
    a
}

pub fn permute(lanes: [u64; 25]) -> [u64; 25]
    ensures { result ≡ keccak_f lanes }
{
    let constants = round_constants();
    let mut a = exchanged(lanes);
    for i in 0..24 {
        let next = round(a, constants[i]);
        a = next;
    }
    exchanged(a)
}
