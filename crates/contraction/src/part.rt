// The parts of a redex, where they stand: a name is found in one of them, and others go in there.
ghost use Rattle.std.specs.Prelude.{◌≡◌, ℕ, ◌+◌, ◌-◌, ◌≤◌, length, take, drop};
ghost use Rattle.std.proofs.Math.Option.{none, some};
ghost use Rattle.rules.specs.Limits.{limits};
ghost use Rattle.rules.specs.Name.{Name};
ghost use Rattle.rules.specs.Term.{Term, nodes as node_count_of};
ghost use Rattle.rules.specs.Substitution.{subst};
ghost use Rattle.term.specs.Place.{TermAt};
ghost use Rattle.substitution.specs.Places.{Row};
ghost use Rattle.substitution.specs.Put.{Room};
ghost use Rattle.contraction.specs.Contracted.{ContractsAt, contraction_of};
ghost use Rattle.contraction.specs.Parts.{Kept, Placing, Pairing};

use rules::{MOST_BYTES, MOST_NODES, Rule};
use substitution::place::{KeptPlaces, find_places};
use substitution::put::{Body, Size, Value, Written, in_turn, put_in};
use term::span::{Extent, Names};

// What a contraction made: its rule, and the nodes of the new whole. The redex's bytes up to `end` are replaced by the `size` that were
// written; those behind stay, and are the tail of what it becomes.
#[derive(Clone, Copy)]
pub struct Contraction {
    pub rule: Rule,
    pub size: usize,
    pub end: usize,
    pub nodes: usize,
}

impl Contraction {
    // What was put in the place of a whole redex, which ends at `end`.
    fn of_written(rule: Rule, end: usize, written: Written) -> Contraction
        ensures { result ≡ contraction_of rule end written }
    {
        Contraction {
            rule,
            size: written.tally.past(),
            end,
            nodes: written.nodes,
        }
    }
}

// Where a redex stands, and the size of the whole that it is a part of.
#[derive(Clone, Copy)]
pub struct Site<'s> {
    pub bytes: &'s [u8],
    pub at: usize,
    pub whole: Size,
}

// A part that goes in: where it starts, and how far it goes.
#[derive(Clone, Copy)]
pub struct Part {
    pub from: usize,
    pub extent: Extent,
}

// A body in which a name was found: where it stands, and what was kept of the name's places.
#[derive(Clone, Copy)]
pub struct BodyAt {
    pub from: usize,
    pub end: usize,
    pub kept: KeptPlaces,
}

// Keeps where the name is free in the body at `from`, counted from there, and tells where the body ends.
pub fn find_in(s: &[u8], from: usize, name: &[u8], places: &mut [u16; MOST_NODES]) -> BodyAt
    requires term_at { (e : Term) × TermAt s.now from e × (node_count_of e ≤ limits.nodes) }
    requires short { (length s.now ≤ from + limits.bytes) × Row places.old }
    ensures kept { (e : Term) → TermAt s.now from e → Kept from name.now e places.new result }
    ensures row { Row places.new }
{
    let kept = find_places(&s[from..], name, places);
    BodyAt {
        from,
        end: from + kept.next,
        kept,
    }
}

impl<'s> Site<'s> {
    // The redex, which ends at `end`, becomes the body with the value at each of the found places.
    // With the body in its place the whole has so many nodes.
    pub fn put_here(
        self,
        rule: Rule,
        end: usize,
        body: BodyAt,
        value: Part,
        nodes: usize,
        places: &[u16],
        made: &mut [u8],
    ) -> Option<Contraction>
        requires placing { (t : Term) × (x : Name) × (e : Term) × (v : Term) × Placing self.bytes.now self.at end body value nodes self.whole.bytes places.now self.whole.nodes t x e v }
        requires room { Room made.old }
        ensures { (t : Term) → (x : Name) → (e : Term) → (v : Term) → Placing self.entry.bytes.now self.entry.at end body value nodes self.entry.whole.bytes places.now self.entry.whole.nodes t x e v → ContractsAt self.entry t rule none (subst x v e) made.new result }
    {
        let s = self.bytes;
        let written = put_in(
            Body {
                bytes: &s[body.from..body.end],
                places: &places[..body.kept.count],
                gap: body.kept.gap,
            },
            Value {
                bytes: &s[value.from..value.extent.next],
                nodes: value.extent.nodes,
            },
            Size {
                nodes,
                bytes: self.whole.bytes - (end - self.at) + (body.end - body.from),
            },
            made,
        )?;
        Some(Contraction::of_written(rule, end, written))
    }

    // The redex becomes the body, which stands behind b, with a for x, then b for y in all that results. The names stand at
    // [at + 2, names.second) and [names.second + 1, names.end).
    pub fn both(
        self,
        rule: Rule,
        names: Names,
        a: Part,
        b: Part,
        nodes: usize,
        places: &mut [u16; MOST_NODES],
        made: &mut [u8],
    ) -> Option<Contraction>
        requires pairing { (t : Term) × (x : Name) × (y : Name) × (e : Term) × (v : Term) × (w : Term) × Pairing self.bytes.now self.at names.second names.end a b nodes self.whole.bytes self.whole.nodes t x y e v w }
        requires row { Row places.old × Room made.old }
        ensures contracts { (t : Term) → (x : Name) → (y : Name) → (e : Term) → (v : Term) → (w : Term) → Pairing self.entry.bytes.now self.entry.at names.second names.end a b nodes self.entry.whole.bytes self.entry.whole.nodes t x y e v w → ContractsAt self.entry t rule (some (subst x v e)) (subst y w (subst x v e)) made.new result }
        ensures row_2 { Row places.new }
    {
        let mut half = [0u8; MOST_BYTES];
        let s = self.bytes;
        let body = find_in(s, b.extent.next, &s[self.at + 2..names.second], places);
        let written = in_turn(
            &s[body.from..body.end],
            body.kept,
            Value {
                bytes: &s[a.from..a.extent.next],
                nodes: a.extent.nodes,
            },
            &s[names.second + 1..names.end],
            Value {
                bytes: &s[b.from..b.extent.next],
                nodes: b.extent.nodes,
            },
            Size {
                nodes,
                bytes: self.whole.bytes - (body.end - self.at) + (body.end - body.from),
            },
            places,
            &mut half,
            made,
        )?;
        Some(Contraction::of_written(rule, body.end, written))
    }
}
