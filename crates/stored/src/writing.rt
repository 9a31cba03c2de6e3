// One block, written: its head, its content and zeros, then the check of these.
ghost use Rattle.std.specs.Prelude.{◌≡◌, ◌≤◌, ◌<◌, ◌∷◌, length};
ghost use Rattle.std.proofs.lemmas.List.Edits.{sets};
ghost use Rattle.rules.specs.Basic.{low-high};
ghost use Rattle.rules.specs.Stored.{kind_byte, block as block_of};
ghost use Rattle.stored.specs.Writing.{Storable, PutBody};

use crate::block::used_in;
use crate::check::put_check;
use buffer::run::{clear, copy};
use rules::{BLOCK_CONTENT, Kind};

// Kind, number and content length, at the start of a block.
fn put_head(kind: Kind, number: usize, size: usize, block: &mut [u8])
    requires { (number < 256) × (size ≤ 65535) × (4 ≤ length block.old) }
    ensures { block.new ≡ sets block.old 0 (kind_byte kind ∷ number ∷ low-high size) }
{
    let [low, high] = (size as u16).to_le_bytes();
    block[..4].copy_from_slice(&[kind.byte(), number as u8, low, high]);
}

// All of a block before its check: its head, its content, zeros. The answer is where the content ends.
fn put_body(kind: Kind, number: usize, content: &[u8], block: &mut [u8]) -> usize
    requires { Storable number content.now block.old }
    ensures { PutBody kind number content.now block.new result }
{
    let size = content.len();
    put_head(kind, number, size, block);
    let from = BLOCK_CONTENT * number;
    let end = from + used_in(size, number);
    let past = copy(content, from, end, block, 4);
    clear(block, past);
    past
}

// Writes a block.
pub fn put_block(kind: Kind, number: usize, content: &[u8], block: &mut [u8])
    requires { Storable number content.now block.old }
    ensures { block.new ≡ block_of kind number content.now }
{
    let end = put_body(kind, number, content, block);
    put_check(block, end);
}
