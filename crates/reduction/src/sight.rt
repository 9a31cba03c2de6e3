// One look at a node.
ghost use Rattle.rules.specs.Term.{Term};
ghost use Rattle.term.specs.Place.{TermAt};
ghost use Rattle.reduction.specs.Seen.{Sees};

use redex::tags::{enters_of, reduces};
use term::node;

// The term has no step, and ends there; or is a redex; or is entered at its first part, which starts there.
#[derive(Clone, Copy)]
pub enum Seen {
    Passed(usize),
    Redex,
    Inside(usize),
}

pub fn see(s: &[u8], at: usize) -> Seen
    requires { (t : Term) × TermAt s.now at t }
    ensures { (t : Term) → TermAt s.now at t → Sees at t result }
{
    let tag = s[at] as usize;
    let start = node::after_names(s, at + 1, node::names_of(tag));
    if enters_of(tag) == 0 {
        return Seen::Passed(node::skip(s, start, node::parts_of(tag)));
    }
    if reduces(tag, s[start] as usize) {
        return Seen::Redex;
    }
    Seen::Inside(start)
}
