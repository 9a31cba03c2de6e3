// What is computed over the bytes of a block, whatever it holds: its weighed sum, its check, and whether bytes are zero.
ghost use Rattle.std.specs.Prelude.{◌≡◌, ◌≤◌, true, ◌++◌, length, take, drop};
ghost use Rattle.rules.specs.Basic.{low-high};
ghost use Rattle.rules.specs.Limits.{block_bytes};
ghost use Rattle.rules.specs.Stored.{weighed, check, all_zero};

use rules::BLOCK_BYTES;

// The check is the last two bytes of a block, and is of all bytes before them.
pub const CHECK_AT: usize = BLOCK_BYTES - 2;

const CHECK_MODULUS: usize = 65521;

// The sum of (position + 1) times the byte: from the end, the sum of all sums so far. At 510 bytes it is below 2^26.
pub fn weigh(body: &[u8]) -> u32
    requires { length body.now ≤ 510 }
    ensures { result ≡ weighed 0 body.now }
{
    let mut bytes: u32 = 0;
    let mut sum: u32 = 0;
    for byte in body.iter().rev() {
        bytes += u32::from(*byte);
        sum += bytes;
    }
    sum
}

// Whether all bytes from `from` on are zero. All are looked at, with no way out of the loop: it becomes vector code.
pub fn zero_from(body: &[u8], from: usize) -> bool
    ensures { result ≡ all_zero (drop from body.now) }
{
    let rest = &body[from.min(body.len())..];
    rest.iter().fold(0, |any, byte| any | byte) == 0
}

// The check of a block's first 510 bytes, of which `clean` says whether they are zero from `end` on.
pub fn check_of(block: &[u8], end: usize, clean: bool) -> usize
    requires { (end ≤ 510) × (length block.now ≡ block_bytes) × (clean ≡ all_zero (drop end (take 510 block.now))) }
    ensures { result ≡ check (take 510 block.now) }
{
    let weighty = if clean { end } else { CHECK_AT };
    weigh(&block[..weighty]) as usize % CHECK_MODULUS
}

// The check, behind a body that is zero from `end` on.
pub fn put_check(block: &mut [u8], end: usize)
    requires { (end ≤ 510) × (length block.old ≡ block_bytes) × (all_zero (drop end (take 510 block.old)) ≡ true) }
    ensures { block.new ≡ take 510 block.old ++ low-high (check (take 510 block.old)) }
{
    let check = check_of(block, end, true) as u16;
    block[CHECK_AT..].copy_from_slice(&check.to_le_bytes());
}
