// The term of a part, written from its rows.
ghost use Rattle.std.specs.Prelude.{length};
ghost use Rattle.rules.specs.Term.{Term};
ghost use Rattle.draft.specs.Made.{Small};
ghost use Rattle.draft.specs.Writing.{Writable, Puts};

use crate::head::put_head;
use crate::row::{FIRST_PARTS, Row, TRIVIAL, UNIT};

// Writes a part, and returns the place after it: the head of its row, then the parts that the row names; a Case's second part twice.
pub fn put_part(s: &[u8], rows: &[Row], part: usize, out: &mut [u8], at: usize) -> usize
    requires { Small rows.now (length rows.now) × ((t : Term) × Writable s.now rows.now (length rows.now) part out.old at t) }
    ensures { Puts s.now rows.now (length rows.now) part out.old at out.new result }
{
    let row = match part {
        UNIT => {
            out[at] = 2;
            return at + 1;
        }
        TRIVIAL => {
            out[at] = 10;
            return at + 1;
        }
        _ => &rows[part - FIRST_PARTS],
    };
    let past = put_head(s, row, out, at);
    let count = row.kind.part_count();
    if count == 0 {
        return past;
    }
    let next = put_part(s, rows, row.first, out, past);
    if count == 1 {
        return next;
    }
    let last = put_part(s, rows, row.second, out, next);
    if count == 2 {
        return last;
    }
    put_part(s, rows, row.second, out, last)
}
