// A value put in for a name, and two of them in turn. The sizes of the new whole are known before anything is written.
ghost use Rattle.std.specs.Prelude.{◌≡◌, ◌+◌, ◌-◌, ◌*◌, ◌<◌, ◌≤◌, ◌^◌};
ghost use Rattle.std.proofs.Math.Option.{none, some};
ghost use Rattle.rules.specs.Name.{Name};
ghost use Rattle.rules.specs.Term.{Term, nodes as node_count_of, size as size_of};
ghost use Rattle.rules.specs.Substitution.{subst};
ghost use Rattle.substitution.specs.Places.{Row};
ghost use Rattle.substitution.specs.Tally.{moved, then_moved};
ghost use Rattle.substitution.specs.Put.{Putting, Turns, Puts, Room, written_after};

use crate::place::{KeptPlaces, find_places};
use crate::splice::splice;
use crate::tally::Tally;
use rules::{MOST_BYTES, MOST_NODES};

// A body, the places of a name in it, and the bytes of the variable that stands at each.
#[derive(Clone, Copy)]
pub struct Body<'b, 'p> {
    pub bytes: &'b [u8],
    pub places: &'p [u16],
    pub gap: usize,
}

// What goes in for a name: its bytes, and its nodes.
#[derive(Clone, Copy)]
pub struct Value<'a> {
    pub bytes: &'a [u8],
    pub nodes: usize,
}

// The nodes and the bytes of a whole.
#[derive(Clone, Copy)]
pub struct Size {
    pub nodes: usize,
    pub bytes: usize,
}

// What was moved, and the nodes of the new whole.
#[derive(Clone, Copy)]
pub struct Written {
    pub tally: Tally,
    pub nodes: usize,
}

impl Written {
    // The same, with what was moved for the first of two.
    fn after(self, first: Tally) -> Written
        requires { (first.runs + self.tally.runs < 2 ^ 64) × (first.values + self.tally.values < 2 ^ 64) }
        ensures { result ≡ written_after first self }
    {
        Written {
            tally: self.tally.after(first),
            nodes: self.nodes,
        }
    }
}

// What has the size `before`, when `count` of its parts of the size `each` become parts of the size `by`.
fn grown(before: usize, count: usize, each: usize, by: usize) -> usize
    requires { (count * each ≤ before) × (before ≤ 65536) × (count ≤ 65536) × (by ≤ 65536) }
    ensures { result ≡ before - count * each + count * by }
{
    before - count * each + count * by
}

// The body with the value at each of its places. The whole has that size with the body as it is. If the new whole outgrows the limits, nothing is written.
pub fn put_in(body: Body, value: Value, whole: Size, out: &mut [u8]) -> Option<Written>
    requires putting { (x : Name) × (e : Term) × (v : Term) × Putting body.bytes.now body.places.now body.gap value.bytes.now value.nodes whole.nodes whole.bytes x e v }
    requires room { Room out.old }
    ensures { (x : Name) → (e : Term) → (v : Term) → Putting body.entry.bytes.now body.entry.places.now body.entry.gap value.entry.bytes.now value.entry.nodes whole.nodes whole.bytes x e v → Puts (whole.nodes - node_count_of e) (whole.bytes - size_of e) none (moved x v e) (subst x v e) out.old out.new result }
{
    let count = body.places.len();
    let nodes = grown(whole.nodes, count, 1, value.nodes);
    if MOST_NODES < nodes {
        return None;
    }
    if MOST_BYTES < grown(whole.bytes, count, body.gap, value.bytes.len()) {
        return None;
    }
    let tally = splice(body.bytes, body.places, body.gap, value.bytes, out);
    Some(Written { tally, nodes })
}

// The body with `first` for x, whose places the row begins with, then `second` for y in all that results; what the first makes is tested as a term by itself.
// Its nodes are no more than those of the whole, which the second does not lessen: so only its bytes are.
pub fn in_turn(
    body: &[u8],
    found: KeptPlaces,
    first: Value,
    y: &[u8],
    second: Value,
    whole: Size,
    places: &mut [u16; MOST_NODES],
    half: &mut [u8],
    out: &mut [u8],
) -> Option<Written>
    requires turns { (x : Name) × (e : Term) × (v : Term) × (w : Term) × Turns body.now places.old found.count found.gap first.bytes.now first.nodes second.bytes.now second.nodes whole.nodes whole.bytes x e v w }
    requires row { Row places.old × Room half.old × Room out.old }
    ensures puts { (x : Name) → (e : Term) → (v : Term) → (w : Term) → Turns body.now places.old found.count found.gap first.entry.bytes.now first.entry.nodes second.entry.bytes.now second.entry.nodes whole.nodes whole.bytes x e v w → Puts (whole.nodes - node_count_of e) (whole.bytes - size_of e) (some (subst x v e)) (then_moved (moved x v e) (moved y.now w (subst x v e))) (subst y.now w (subst x v e)) out.old out.new result }
    ensures row_2 { Row places.new }
{
    let bytes = body.len();
    let beside = whole.bytes - bytes;
    let halfway = put_in(
        Body {
            bytes: body,
            places: &places[..found.count],
            gap: found.gap,
        },
        first,
        Size {
            nodes: whole.nodes,
            bytes,
        },
        half,
    )?;
    let size = halfway.tally.past();
    let body = &half[..size];
    let found = find_places(body, y, places);
    let written = put_in(
        Body {
            bytes: body,
            places: &places[..found.count],
            gap: found.gap,
        },
        second,
        Size {
            nodes: halfway.nodes,
            bytes: beside + size,
        },
        out,
    )?;
    Some(written.after(halfway.tally))
}
