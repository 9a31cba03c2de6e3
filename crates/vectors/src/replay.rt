// One record, replayed: whether the call answers, and leaves in what it is lent, what the list has.
ghost use Rattle.std.specs.Prelude.{◌≤◌, length};

use crate::call::Call;
use crate::calls::{ask, child_part};
use crate::lent::{FILLED, Left};
use crate::record::{Record, number};

// Whether the numbers told are those that are wanted.
fn is_told_right(told: &[u64; 16], wanted: &[u8]) -> bool {
    for i in 0..16u8 {
        if told[usize::from(i)] != u64::from(number(wanted, 2 + i)) {
            return false;
        }
    }
    true
}

// How much is lent of a buffer that is long enough for any call.
fn room(record: &Record, i: u8, buffer: &[u8]) -> usize
    ensures { result ≤ length buffer.now }
{
    buffer.len().min(number(record.numbers, i) as usize)
}

// A call is lent an output and a scratch, which it leaves alone where it takes none.
pub fn is_right(record: &Record, out: &mut [u8], scratch: &mut [u8]) -> bool {
    let Ok(call) = Call::try_from(record.call) else {
        return false;
    };
    let n = room(record, 1, out);
    let m = room(record, 2, scratch);
    let out = &mut out[..n];
    let scratch = &mut scratch[..m];
    out.fill(FILLED);
    scratch.fill(FILLED);
    let mut told = [0u64; 16];
    ask(call, record, out, scratch, &mut told);
    let left = match call {
        Call::Child => Left::of(child_part(record), record.output),
        _ => Left::of(out, record.output),
    };
    left as u32 == number(record.wanted, 0)
        && Left::of(scratch, b"") as u32 == number(record.wanted, 1)
        && is_told_right(&told, record.wanted)
}
