// Walks over the bytes of a term: the position after names and parts, and one look at a node.
// Nothing here tests what it reads: a walk starts where a term is known to stand (specs/Place.antt).
ghost use Rattle.std.specs.Prelude.{◌≡◌, List, ◌+◌, ◌<◌, ◌↔◌, length, IsTrue};
ghost use Rattle.rules.specs.Name.{Name, same as same_name, encode_names};
ghost use Rattle.rules.specs.Term.{Term, parts};
ghost use Rattle.term.specs.Node.{head, names_after, parts_after, single_part, encode_all};
ghost use Rattle.term.specs.Place.{TermAt, TermsAt, NameAt, NamesAt};
ghost use Rattle.term.specs.Seen.{Seen};

use crate::span::span_row;
use crate::{binder, tag};
use buffer::run;

// How many names and how many parts follow each tag: two bits a tag.
// Kept: numbers, since with a match on the tag a walk over a term takes twice as long.
const NAMES: usize = 1 << (tag::VAR * 2)
    | 1 << (tag::ABS * 2)
    | 2 << (tag::LET_PAIR * 2)
    | 2 << (tag::COPY * 2)
    | 2 << (tag::CASE * 2);

const PARTS: usize = 1 << (tag::INL * 2)
    | 1 << (tag::INR * 2)
    | 1 << (tag::FST * 2)
    | 1 << (tag::SND * 2)
    | 1 << (tag::ABORT * 2)
    | 1 << (tag::PROMOTE * 2)
    | 1 << (tag::DERELICT * 2)
    | 1 << (tag::ABS * 2)
    | 2 << (tag::PAIR * 2)
    | 2 << (tag::APP * 2)
    | 2 << (tag::DISCARD * 2)
    | 2 << (tag::LET_PAIR * 2)
    | 2 << (tag::COPY * 2)
    | 3 << (tag::CASE * 2);

pub fn names_of(tag: usize) -> usize
    requires { tag < 32 }
    ensures { result ≡ names_after tag }
{
    (NAMES >> (tag * 2)) % 4
}

pub fn parts_of(tag: usize) -> usize
    requires { tag < 32 }
    ensures { result ≡ parts_after tag }
{
    (PARTS >> (tag * 2)) % 4
}

// The tags that one part follows and no name: one bit a tag.
const ONE_PART: usize = 1 << tag::INL
    | 1 << tag::INR
    | 1 << tag::FST
    | 1 << tag::SND
    | 1 << tag::ABORT
    | 1 << tag::PROMOTE
    | 1 << tag::DERELICT;

// Whether one part follows the tag, and no name.
pub fn one_part(tag: u8) -> bool
    ensures { IsTrue result ↔ (single_part tag ≡ 1) }
{
    (ONE_PART >> (tag % 32)) % 2 == 1
}

// The position after n names.
pub fn after_names(s: &[u8], at: usize, n: usize) -> usize
    requires { (xs : List Name) × NamesAt s.now at n xs }
    ensures { (xs : List Name) → NamesAt s.now at n xs → result ≡ at + length (encode_names xs) }
{
    let mut i = at;
    for _ in 0..n {
        let len = s[i] as usize;
        i = i + 1 + len;
    }
    i
}

// The position after n terms.
pub fn skip(s: &[u8], at: usize, n: usize) -> usize
    requires { (ts : List Term) × TermsAt s.now at n ts }
    ensures { (ts : List Term) → TermsAt s.now at n ts → result ≡ at + length (encode_all ts) }
{
    span_row(s, at, n).next
}

// The parts of a node: where they start, and how many there are.
#[derive(Clone, Copy)]
pub struct Row {
    pub start: usize,
    pub parts: usize,
}

// Kept: a place, of which `requires` says that a term stands there: a struct that said so would be built by the same proof at each part.
pub fn parts_at(s: &[u8], at: usize) -> Row
    requires { (t : Term) × TermAt s.now at t }
    ensures { (t : Term) → TermAt s.now at t → (result.start ≡ at + length (head t)) × (result.parts ≡ length (parts t)) }
{
    let tag = s[at] as usize;
    let parts = parts_of(tag);
    let start = after_names(s, at + 1, names_of(tag));
    Row { start, parts }
}

// The name at `at`, without its length.
pub fn name(s: &[u8], at: usize) -> &[u8]
    requires { (x : Name) × NameAt s.now at x }
    ensures { (x : Name) → NameAt s.now at x → result.now ≡ x }
{
    let from = at + 1;
    let end = from + s[at] as usize;
    &s[from..end]
}

// Whether the name at `at` is `sought`.
pub fn same_name(s: &[u8], at: usize, sought: &[u8]) -> bool
    requires { (y : Name) × NameAt s.now at y }
    ensures { (y : Name) → NameAt s.now at y → result ≡ same_name sought.now y }
{
    run::same(sought, name(s, at))
}

// A node, with a name in mind: where its parts start, how many there are, which of them a binder of that name covers,
// and whether it is that variable.
// Kept: a flag, since the parts are told of every node.
#[derive(Clone, Copy)]
pub struct Node {
    pub start: usize,
    pub parts: usize,
    pub hides: usize,
    pub is: bool,
}

// One look at the node at `at`.
pub fn look(s: &[u8], at: usize, name: &[u8]) -> Node
    requires { (t : Term) × TermAt s.now at t }
    ensures { (t : Term) → TermAt s.now at t → Seen name.now at t result }
{
    let tag = s[at] as usize;
    let names = names_of(tag);
    let parts = parts_of(tag);
    let first = at + 1;
    if names == 0 {
        return Node {
            start: first,
            parts,
            hides: binder::NONE,
            is: false,
        };
    }
    let x = same_name(s, first, name);
    let second = after_names(s, first, 1);
    match (names, parts) {
        (_, 0) => Node {
            start: second,
            parts,
            hides: binder::NONE,
            is: x,
        },
        (1, _) => Node {
            start: second,
            parts,
            hides: binder::by_one(x),
            is: false,
        },
        _ => {
            let y = same_name(s, second, name);
            Node {
                start: after_names(s, second, 1),
                parts,
                hides: binder::by_two(x, y, parts),
                is: false,
            }
        }
    }
}
