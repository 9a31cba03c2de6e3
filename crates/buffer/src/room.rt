// The output and the scratch that a call is lent: whether they are long enough, and the zeros that are left in them.
ghost use Rattle.std.specs.Prelude.{◌≡◌, ◌-◌, ◌≤◌, length, replicate};
ghost use Rattle.std.proofs.lemmas.List.Edits.{sets};
ghost use Rattle.rules.specs.Limits.{limits, scratch_room};
ghost use Rattle.buffer.specs.Rooms.{Rooms};

use crate::run;
use rules::{OUTPUT_ROOM, SCRATCH_ROOM};

// Whether the output or the scratch is too short, by their lengths.
pub fn short(out: usize, scratch: usize) -> bool
    ensures { Rooms out scratch result }
{
    out < OUTPUT_ROOM || scratch < SCRATCH_ROOM
}

// Zeros behind the first bytes of the output, and in all of the scratch.
pub fn leave(out: &mut [u8], many: usize, scratch: &mut [u8])
    requires { (many ≤ length out.old) × (scratch_room limits ≤ length scratch.old) }
    ensures out_after { out.new ≡ sets out.old many (replicate (length out.old - many) 0) }
    ensures scratch_after { scratch.new ≡ sets scratch.old 0 (replicate (length scratch.old - 0) 0) }
{
    run::clear(out, many);
    run::clear(scratch, 0);
}
