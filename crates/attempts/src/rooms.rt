// How much room short books have.
ghost use Rattle.std.specs.Prelude.{◌≡◌};
ghost use Rattle.attempts.specs.Rooms.{short_room};

use book::Room;

pub const SHORT_DEFINITIONS: usize = 48;

pub const SHORT_KERNELS: usize = 64;

pub const SHORT_GOES: usize = 64;

pub const SHORT_STATES: usize = 32;

pub const SHORT_RULES: usize = 32;

// Room for most books that advisers write.
pub fn short_room() -> Room
    ensures { result ≡ short_room }
{
    Room {
        definitions: SHORT_DEFINITIONS,
        kernels: SHORT_KERNELS,
        goes: SHORT_GOES,
        states: SHORT_STATES,
        rules: SHORT_RULES,
    }
}
