// One block of a file: kind, number, content length, content, check. Its parts, and whether it opens.
ghost use Rattle.std.specs.Prelude.{◌≡◌, ◌+◌, ◌≤◌, ◌<◌, length};
ghost use Rattle.rules.specs.Limits.{limits, block_bytes, block_count_for};
ghost use Rattle.rules.specs.Stored.{two_bytes, used_bytes_in, is_head_wrong};
ghost use Rattle.stored.specs.Opening.{OpenedBlock, fault_first};

use crate::check::{CHECK_AT, check_of, zero_from};
use reader::refused;
use rules::{BLOCK_BYTES, BLOCK_CONTENT, Kind, MOST_BYTES, Reason, Refusal};

// How many blocks hold so much content.
pub fn blocks_for(size: usize) -> usize
    requires { size ≤ 65535 }
    ensures { result ≡ block_count_for size }
{
    size.div_ceil(BLOCK_CONTENT)
}

// How much of a block is content, of so many bytes in all.
pub fn used_in(size: usize, number: usize) -> usize
    requires { number < 256 }
    ensures { result ≡ used_bytes_in size number }
{
    size.saturating_sub(BLOCK_CONTENT * number)
        .min(BLOCK_CONTENT)
}

// The number that two bytes make, low byte first.
pub fn two_bytes(s: &[u8], at: usize) -> usize
    requires { at + 1 < length s.now }
    ensures { result ≡ two_bytes s.now at }
{
    usize::from(u16::from_le_bytes([s[at], s[at + 1]]))
}

// Refusal 12: kind, number, length, or the length and block 0 or the file's size do not go together.
pub fn head_wrong(kind: Kind, file: &[u8], number: usize, block: &[u8]) -> bool
    requires { (4 ≤ length file.now) × (4 ≤ length block.now) }
    ensures { result ≡ is_head_wrong limits kind file.now number block.now }
{
    let size = two_bytes(block, 2);
    block[0] != kind.byte()
        || usize::from(block[1]) != number
        || size < 1
        || MOST_BYTES < size
        || size != two_bytes(file, 2)
        || blocks_for(size) != file.len() / BLOCK_BYTES
}

// The first fault of a block, in the order of the rules: whether its check, its head, its rest is wrong.
fn first_fault(sum: bool, head: bool, rest: bool) -> Option<Reason>
    ensures { result ≡ fault_first sum head rest }
{
    if sum {
        return Some(Reason::BlockCheck);
    }
    if head {
        return Some(Reason::BlockHead);
    }
    if rest {
        return Some(Reason::UnusedNotZero);
    }
    None
}

// Opens a block of a file: 11, 12, 13 in that order, or how much of it is content.
pub fn open_block(kind: Kind, file: &[u8], number: usize, block: &[u8]) -> Result<usize, Refusal>
    requires { (number < 256) × (4 ≤ length file.now) × (length block.now ≡ block_bytes) }
    ensures { OpenedBlock limits kind file.now number block.now result }
{
    let used = used_in(two_bytes(block, 2), number);
    let end = 4 + used;
    let clean = zero_from(&block[..CHECK_AT], end);
    let sum = two_bytes(block, CHECK_AT) != check_of(block, end, clean);
    let head = head_wrong(kind, file, number, block);
    match first_fault(sum, head, !clean) {
        Some(reason) => refused(reason, number, 1),
        None => Ok(used),
    }
}
