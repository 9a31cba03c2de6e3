// Where names and terms end, and how many nodes a term has.
ghost use Rattle.std.specs.Prelude.{List, [], ◌∷◌, ◌+◌};
ghost use Rattle.rules.specs.Name.{Name};
ghost use Rattle.rules.specs.Term.{Term};
ghost use Rattle.term.specs.Place.{TermAt, TermsAt, NamesAt};
ghost use Rattle.term.specs.Measured.{Measured, MeasuredRow, MeasuredTwo, Named};

use crate::node;

// The place after a term or a row of terms, and their nodes.
#[derive(Clone, Copy)]
pub struct Extent {
    pub next: usize,
    pub nodes: usize,
}

// n terms in a row. A node's parts take its place in the row, so that no range counts the turns.
pub(crate) fn span_row(s: &[u8], at: usize, n: usize) -> Extent
    requires { (ts : List Term) × TermsAt s.now at n ts }
    ensures { (ts : List Term) → TermsAt s.now at n ts → MeasuredRow at ts result }
{
    let mut next = at;
    let mut left = n;
    let mut nodes = 0;
    while 0 < left {
        let row = node::parts_at(s, next);
        left = left - 1 + row.parts;
        next = row.start;
        nodes += 1;
    }
    Extent { next, nodes }
}

pub fn span(s: &[u8], at: usize) -> Extent
    requires { (t : Term) × TermAt s.now at t }
    ensures { (t : Term) → TermAt s.now at t → Measured at t result }
{
    span_row(s, at, 1)
}

// Two terms in a row: where the second starts and ends, and the nodes of each.
#[derive(Clone, Copy)]
pub struct Two {
    pub second: usize,
    pub end: usize,
    pub a: usize,
    pub b: usize,
}

pub fn span_two(s: &[u8], at: usize) -> Two
    requires { (a : Term) × (b : Term) × TermsAt s.now at 2 (a ∷ b ∷ []) }
    ensures { (a : Term) → (b : Term) → TermsAt s.now at 2 (a ∷ b ∷ []) → MeasuredTwo at a b result }
{
    let a = span(s, at);
    let b = span(s, a.next);
    Two {
        second: a.next,
        end: b.next,
        a: a.nodes,
        b: b.nodes,
    }
}

// Two names in a row, each with its length byte: where the second starts and ends.
#[derive(Clone, Copy)]
pub struct Names {
    pub second: usize,
    pub end: usize,
}

pub fn span_names(s: &[u8], at: usize) -> Names
    requires { (x : Name) × (y : Name) × NamesAt s.now at 2 (x ∷ y ∷ []) }
    ensures { (x : Name) → (y : Name) → NamesAt s.now at 2 (x ∷ y ∷ []) → Named at x y result }
{
    let second = node::after_names(s, at, 1);
    let end = node::after_names(s, second, 1);
    Names { second, end }
}
