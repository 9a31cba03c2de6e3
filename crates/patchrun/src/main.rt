// Reads one stored term from standard input, and writes what is printed for it. All that is printed is computed by `printed`.
#![tactic(auto)]

use program::input::read_full;
use program::run::{PRINTED_ROOM, printed};
use rules::{BLOCK_BYTES, STORED_ROOM};
use std::io;
use std::io::Write;

// Longer than a stored file may be, so that input which is too long is refused and not cut.
const FILE_ROOM: usize = STORED_ROOM + BLOCK_BYTES;

fn main(rt: HostRuntime) -> io::Result<()> {
    let mut file = [0u8; FILE_ROOM];
    let n = read_full(&mut rt.reader(), &mut file)?;
    let mut term = [0; 4096];
    let mut scratch = [0; 8192];
    let mut text = [0; PRINTED_ROOM];
    let end = printed(&file[..n], &mut term, &mut scratch, &mut text);
    io::writer(&rt).write_all(&text[..end])
}
