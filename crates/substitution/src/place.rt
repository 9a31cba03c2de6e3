// Where a name is free in a term: a walk that keeps the places as numbers in a lent row.
ghost use Rattle.std.specs.Prelude.{◌≡◌, ◌+◌, ◌/◌, ◌%◌, ◌≤◌, length};
ghost use Rattle.rules.specs.Limits.{limits};
ghost use Rattle.rules.specs.Term.{Term, nodes, size};
ghost use Rattle.buffer.specs.Wrote.{Wrote};
ghost use Rattle.term.specs.Place.{TermAt};
ghost use Rattle.substitution.specs.Places.{places as places_of, open_places, Row, Finding};

use rules::MOST_NODES;
use term::node;

// The place after a term, and after what was kept.
// Kept: in one number, which comes back in a register; a struct from the walk below, which calls itself and is not inlined, comes back in memory.
fn come_to(next: usize, to: usize) -> usize
    requires { (next ≤ limits.bytes) × (to ≤ limits.nodes) }
    ensures { (result % 65536 ≡ next) × (result / 65536 ≡ to) }
{
    to * 65536 + next
}

// Keeps from `to` on where `name` is free in the term at `at`, unless the mask's lowest bit hides that. It calls itself on each part.
// What it hands on are numbers and thin references, so that a call on the last part is a jump.
fn find(
    s: &&[u8],
    at: usize,
    mask: usize,
    name: &&[u8],
    row: &mut [u16; MOST_NODES],
    to: usize,
) -> usize
    requires { Finding s.now.now at mask name.now.now row.old to }
    ensures { (t : Term) → TermAt s.now.now at t → (result % 65536 ≡ at + size t) × Wrote row.old to (open_places name.now.now mask t at) row.new (result / 65536) }
{
    let hide = mask % 2;
    if hide == 1 {
        let past = node::skip(*s, at, 1);
        return come_to(past, to);
    }
    let node = node::look(*s, at, *name);
    let start = node.start;
    if node.is {
        row[to] = at as u16;
        return come_to(start, to + 1);
    }
    let parts = node.parts;
    if parts == 0 {
        return come_to(start, to);
    }
    let hides = node.hides;
    if parts == 1 {
        return find(s, start, hides, name, row, to);
    }
    let a = find(s, start, hides, name, row, to);
    let others = hides / 2;
    if parts == 2 {
        return find(s, a % 65536, others, name, row, a / 65536);
    }
    let b = find(s, a % 65536, others, name, row, a / 65536);
    find(s, b % 65536, others / 2, name, row, b / 65536)
}

// The place after the term, how many places were kept, and the bytes of the variable that stands at each.
#[derive(Clone, Copy)]
pub struct KeptPlaces {
    pub next: usize,
    pub count: usize,
    pub gap: usize,
}

// Keeps where `name` is free in the term at the start of s, and tells where that ends.
pub fn find_places(s: &[u8], name: &[u8], places: &mut [u16; MOST_NODES]) -> KeptPlaces
    requires term_at { (t : Term) × TermAt s.now 0 t × (nodes t ≤ limits.nodes) }
    requires s_len_bound { (length s.now ≤ limits.bytes) × Row places.old }
    ensures { (t : Term) → TermAt s.now 0 t → (result.next ≡ size t) × Wrote places.old 0 (places_of name.now t 0) places.new result.count × (result.gap ≡ 2 + length name.now) }
{
    let found = find(&s, 0, 0, &name, places, 0);
    KeptPlaces {
        next: found % 65536,
        count: found / 65536,
        gap: 2 + name.len(),
    }
}
