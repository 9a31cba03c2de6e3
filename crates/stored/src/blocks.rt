// All blocks of a file, one after the other: written, and opened.
ghost use Rattle.std.specs.Prelude.{◌+◌, ◌*◌, ◌/◌, ◌≤◌, ◌<◌, length};
ghost use Rattle.rules.specs.Limits.{limits, stored_room};
ghost use Rattle.rules.specs.Stored.{stored};
ghost use Rattle.buffer.specs.Wrote.{Wrote};
ghost use Rattle.stored.specs.Opening.{gather_room, OpenedBlocks};

use crate::block::{blocks_for, open_block};
use crate::writing::put_block;
use buffer::run::copy;
use rules::{BLOCK_BYTES, Kind, Refusal};

// Writes the stored form of content, and returns the place after it.
pub fn put_blocks(kind: Kind, content: &[u8], out: &mut [u8]) -> usize
    requires { (length content.now ≤ limits.bytes) × (stored_room limits ≤ length out.old) }
    ensures { Wrote out.old 0 (stored kind content.now) out.new result }
{
    let many = blocks_for(content.len());
    for number in 0..many {
        let at = BLOCK_BYTES * number;
        put_block(kind, number, content, &mut out[at..at + BLOCK_BYTES]);
    }
    BLOCK_BYTES * many
}

// Opens the blocks of a file, and puts their content together.
pub fn open_blocks(kind: Kind, file: &[u8], content: &mut [u8]) -> Result<usize, Refusal>
    requires { (4 ≤ length file.now) × (length file.now ≤ stored_room limits) × (gather_room limits ≤ length content.old) }
    ensures { OpenedBlocks limits kind file.now content.new result }
{
    let mut at = 0;
    for number in 0..file.len() / BLOCK_BYTES {
        let from = BLOCK_BYTES * number;
        let block = &file[from..from + BLOCK_BYTES];
        let used = open_block(kind, file, number, block)?;
        at = copy(block, 4, 4 + used, content, at);
    }
    Ok(at)
}
