// Where the parts of a map write stand, how long they are, and its kind, whose two bytes begin what the tag covers.
ghost use Rattle.std.specs.Prelude.{◌≡◌, ◌<◌};
ghost use Rattle.maps.specs.Writes.{map_kind};

pub const KIND_AT: usize = 4;

pub const KART_AT: usize = 6;

pub const COUNTER_AT: usize = 10;

pub const MAP_AT: usize = 14;

pub const TAG_AT: usize = 270;

pub const RECORD: usize = 302;

pub const MAP: usize = 256;

pub const TAG: usize = 32;

// The length that the record states.
pub const BODY: usize = 296;

pub const THING: u32 = 7;

// The thing in the low byte, the session's level in the high one.
#[tactic(auto, unfolding(crate::specs::Writes::map_kind))]
pub fn kind(level: u32) -> u16
    requires { level < 256 }
    ensures { result ≡ map_kind level }
{
    (256 * level + THING) as u16
}
