// A row of names in order: where a name goes, and the row opened there. Binders in a row: where the nearest of a name stands.
ghost use Rattle.std.specs.Prelude.{List, ◌≤◌, ◌<◌, length};
ghost use Rattle.rules.specs.Name.{Name};
ghost use Rattle.term.specs.Place.{NameAt};
ghost use Rattle.free.specs.Rows.{binders, Passed, Scanned, Sought, Goes, Opened};

use crate::order::{order_at, same_at};
use rules::MOST_NODES;
use std::cmp::Ordering;

// Where the places of the binders end in the row: a node brings at most two names.
pub const BINDERS: usize = 2 * MOST_NODES;

// Where in the row the nearest binder passed of the name at `at` stands.
pub fn passed(s: &[u8], at: usize, row: &[u16], low: usize) -> Option<usize>
    requires name_at { (x : Name) × (xs : List Name) × NameAt s.now at x × Passed s.now row.now low xs }
    requires binders_in_bounds { binders ≤ length row.now }
    ensures { (x : Name) → (xs : List Name) → NameAt s.now at x → Passed s.now row.now low xs → Scanned x xs result }
{
    for i in low..BINDERS {
        if same_at(s, at, row[i] as usize) {
            return Some(i);
        }
    }
    None
}

// Where the name at `at` stands among names in order, which are told by their places, or where it would go.
// Kept: the library's search calls its closure on any entry, and `order_at` may be called with a name's place alone.
pub fn slot_for(s: &[u8], at: usize, found: &[u16]) -> Result<usize, usize>
    requires { (x : Name) × (xs : List Name) × Sought s.now at found.now (length found.now) x xs }
    ensures { (x : Name) → (xs : List Name) → Sought s.now at found.now (length found.now) x xs → Goes x xs result }
{
    let mut lo = 0;
    let mut hi = found.len();
    while lo < hi {
        let mid = lo + (hi - lo) / 2;
        match order_at(s, found[mid] as usize, at) {
            Ordering::Less => lo = mid + 1,
            Ordering::Equal => return Ok(mid),
            Ordering::Greater => hi = mid,
        }
    }
    Err(lo)
}

// Puts p into the row at i; the entries from i to n move up by one.
pub fn open_at(row: &mut [u16], n: usize, i: usize, p: u16)
    requires { (i ≤ n) × (n < length row.old) }
    ensures { Opened row.old row.new n i p }
{
    row.copy_within(i..n, i + 1);
    row[i] = p;
}
