// "Numbers of the two levels", and of CR 12's third: a row for each level.
ghost use Rattle.std.specs.Prelude.{◌≡◌, ◌/◌};
ghost use Rattle.ring.specs.Levels;
ghost use Rattle.ring.specs.Levels.{level_of};
ghost use Rattle.ring.specs.inner.Rows.{row};

#[derive(Drop)]
pub struct Level {
    pub number: u32,
    pub r: usize,
    pub d: usize,
    pub t: usize,
    pub slope: usize,
    pub offset: usize,
    pub divisor: usize,
    pub least: usize,
}

// A level stays a number here and above: entries, records and C bring any, and the functions that docs/PROMISES.md names
// answer for any, so an enum of levels would be taken apart again at each of them.
pub fn known(level: u32) -> bool
    ensures { result ≡ Levels.known level }
{
    (level == 1) | (level == 3) | (level == 5)
}

// The row of a level; that of the first where the level is unknown.
pub fn level_of(level: u32) -> Level
    ensures { row result ≡ level_of level }
{
    if level == 5 {
        return Level {
            number: 5,
            r: 40973,
            d: 137,
            t: 264,
            slope: 402312,
            offset: 1587850000,
            divisor: 100000000,
            least: 69,
        };
    }
    if level == 3 {
        return Level {
            number: 3,
            r: 24659,
            d: 103,
            t: 199,
            slope: 52650,
            offset: 152588000,
            divisor: 10000000,
            least: 52,
        };
    }
    Level {
        number: 1,
        r: 12323,
        d: 71,
        t: 134,
        slope: 69722,
        offset: 135300000,
        divisor: 10000000,
        least: 36,
    }
}

// n over the level's divisor, which is written out: a division by a variable has a jump on the dividend.
pub fn divided(level: u32, n: usize) -> usize
    ensures { result ≡ n / (level_of level).divisor }
{
    if level == 5 {
        return n / 100000000;
    }
    n / 10000000
}
