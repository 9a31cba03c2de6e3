// The sizes of the parts of a draft, held at a cap: a branching writes a part twice, so that a term can be far larger than its draft.
ghost use Rattle.std.specs.Prelude.{◌≡◌, ◌+◌, ◌≤◌, ◌<◌, length};
ghost use Rattle.rules.specs.Limits.{limits};
ghost use Rattle.rules.specs.Term.{Term, fits as fits_limits};
ghost use Rattle.draft.specs.Draft.{Drafts};
ghost use Rattle.draft.specs.Heads.{summed};
ghost use Rattle.draft.specs.Measured.{cap, capped as capped_at, Countable, Measured};

use crate::head::head_len;
use crate::row::{FIRST_PARTS, Row, TRIVIAL, UNIT};
use rules::{MOST_BYTES, MOST_NODES};

const CAP: usize = 65535;

// The bytes and the nodes of a part.
#[derive(Clone, Copy)]
pub struct Size {
    pub bytes: usize,
    pub nodes: usize,
}

// What stands in an array of sizes before it is written: zeros.
pub const NO_SIZE: Size = Size { bytes: 0, nodes: 0 };

fn capped(n: usize) -> usize
    ensures { result ≡ capped_at n }
{
    n.min(CAP)
}

// The sum over a head and as many parts as follow it.
fn total(count: usize, own: usize, a: usize, b: usize) -> usize
    requires { (own ≤ cap) × (a ≤ cap) × (b ≤ cap) }
    ensures { result ≡ capped_at (summed count own a b) }
{
    match count {
        0 => own,
        1 => capped(own + a),
        2 => capped(own + a + b),
        _ => capped(own + a + b + b),
    }
}

// Measures the part of row i, the parts before it being measured.
fn measure_row(s: &[u8], rows: &[Row], i: usize, sizes: &mut [Size])
    requires { Countable rows.now (length rows.now) sizes.old × Measured s.now rows.now (length rows.now) (i + 2) sizes.old × (i < length rows.now) }
    ensures { Measured s.now rows.now (length rows.now) (i + 3) sizes.new }
{
    let row = &rows[i];
    let first = sizes[row.first];
    let second = sizes[row.second];
    let count = row.kind.part_count();
    let own = head_len(s, row);
    let bytes = total(count, own, first.bytes, second.bytes);
    let nodes = total(count, row.kind.node_count(), first.nodes, second.nodes);
    sizes[i + FIRST_PARTS] = Size { bytes, nodes };
}

// Measures every part, in the order of the rows.
pub fn measure(s: &[u8], rows: &[Row], sizes: &mut [Size])
    requires { Countable rows.now (length rows.now) sizes.old }
    ensures { Measured s.now rows.now (length rows.now) (length rows.now + 2) sizes.new }
{
    let one = Size { bytes: 1, nodes: 1 };
    sizes[UNIT] = one;
    sizes[TRIVIAL] = one;
    for i in 0..rows.len() {
        measure_row(s, rows, i, sizes);
    }
}

// Whether the term of a part breaks no limit.
pub fn fits(s: &[u8], rows: &[Row], part: usize, sizes: &mut [Size]) -> bool
    requires { Countable rows.now (length rows.now) sizes.old × (part < length rows.now + 2) }
    ensures { (t : Term) → Drafts s.now rows.now (length rows.now) part t → result ≡ fits_limits limits t }
{
    measure(s, rows, sizes);
    let size = sizes[part];
    size.nodes <= MOST_NODES && size.bytes <= MOST_BYTES
}
