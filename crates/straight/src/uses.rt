// How often a name is used as a variable of a term and stands at a binder of it.
ghost use Rattle.std.specs.Prelude.{◌≡◌, List, if◌then◌else◌};
ghost use Rattle.rules.specs.Name.{Name, same as same_name};
ghost use Rattle.rules.specs.Term.{Term};
ghost use Rattle.term.specs.Place.{TermAt, NameAt, NamesAt};
ghost use Rattle.straight.specs.Counts.{PastNames, AtNode, InTerm};

use term::{node, tag};

// Whether a and b are the same bytes. By a loop, since every name of a term is asked about for every binder and most are told by a byte or two:
// `==` is a call for longer names, for which a walk puts its counts on the stack.
fn same_bytes(a: &[u8], b: &[u8]) -> bool
    ensures { result ≡ same_name a.now b.now }
{
    if a.len() != b.len() {
        return false;
    }
    for i in 0..a.len() {
        if a[i] != b[i] {
            return false;
        }
    }
    true
}

// Names in a row: the place after them, and how many of them are the name sought.
#[derive(Clone, Copy)]
pub struct SameNames {
    pub next: usize,
    pub same: usize,
}

fn same_names(s: &[u8], at: usize, n: usize, name: &[u8]) -> SameNames
    requires { (xs : List Name) × NamesAt s.now at n xs }
    ensures { (xs : List Name) → NamesAt s.now at n xs → PastNames name.now at xs result }
{
    let mut next = at;
    let mut same = 0;
    for _ in 0..n {
        same += usize::from(same_bytes(name, node::name(s, next)));
        next = node::after_names(s, next, 1);
    }
    SameNames { next, same }
}

// A node: where its parts start, how many there are, and how often the node itself uses the name and has it at a binder.
#[derive(Clone, Copy)]
pub struct NodeUses {
    pub start: usize,
    pub parts: usize,
    pub uses: usize,
    pub stands: usize,
}

fn uses_at(s: &[u8], at: usize, name: &[u8]) -> NodeUses
    requires { (t : Term) × TermAt s.now at t }
    ensures { (t : Term) → TermAt s.now at t → AtNode name.now at t result }
{
    let tag = s[at];
    let parts = node::parts_of(tag as usize);
    let named = same_names(s, at + 1, node::names_of(tag as usize), name);
    let start = named.next;
    let (uses, stands) = match tag {
        tag::VAR => (named.same, 0),
        _ => (0, named.same),
    };
    NodeUses {
        start,
        parts,
        uses,
        stands,
    }
}

// A whole term.
#[derive(Clone, Copy)]
pub struct TermUses {
    pub uses: usize,
    pub stands: usize,
}

pub fn uses_in(s: &[u8], at: usize, name: &[u8]) -> TermUses
    requires { (t : Term) × TermAt s.now at t }
    ensures { (t : Term) → TermAt s.now at t → InTerm name.now t result }
{
    let mut next = at;
    let mut left = 1;
    let mut uses = 0;
    let mut stands = 0;
    while 0 < left {
        let own = uses_at(s, next, name);
        left = left - 1 + own.parts;
        uses += own.uses;
        stands += own.stands;
        next = own.start;
    }
    TermUses { uses, stands }
}
