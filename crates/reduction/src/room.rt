// Room to contract in.
ghost use Rattle.std.specs.Prelude.{◌≤◌, length};
ghost use Rattle.rules.specs.Limits.{limits, output_room};
ghost use Rattle.contraction.specs.Contracted.{Row};

use rules::{MOST_BYTES, MOST_NODES};

// A row for the places of a name, and the bytes that a contraction makes.
#[derive(Drop)]
pub struct Room {
    pub places: [u16; MOST_NODES],
    pub made: [u8; MOST_BYTES],
    ghost row: { Row places },
    ghost made_room: { output_room limits ≤ length made },
}
