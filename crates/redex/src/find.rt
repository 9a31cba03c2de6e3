// The search for the first redex from the left.
ghost use Rattle.std.specs.Prelude.{◌≡◌, ◌<◌, Ok, Err, length};
ghost use Rattle.rules.specs.Term.{Term};
ghost use Rattle.term.specs.Place.{TermAt};
ghost use Rattle.redex.specs.Searched.{sought, told};

use crate::tags::{enters_of, reduces};
use term::node;

// What a search tells, in one number: twice the place, and one more where a redex is there.
// Kept: a Result would come back from the walk by way of memory, a number comes back in a register.
fn redex(place: usize) -> usize
    requires { place < 9223372036854775808 }
    ensures { told result ≡ Ok place }
{
    place * 2 + 1
}

fn after(next: usize) -> usize
    requires { next < 9223372036854775808 }
    ensures { told result ≡ Err next }
{
    next * 2
}

// Searches the term at `at`, by a call of itself on each part entered. What it hands on are a thin reference and a number, so that a call
// on the last part is a jump.
fn seek(s: &&[u8], at: usize) -> usize
    requires { ((t : Term) × TermAt s.now.now at t) × (length s.now.now < 9223372036854775808) }
    ensures { (t : Term) → TermAt s.now.now at t → told result ≡ sought at t }
{
    let tag = s[at] as usize;
    let parts = node::parts_of(tag);
    let names = node::names_of(tag);
    let start = node::after_names(*s, at + 1, names);
    let enters = enters_of(tag);
    if enters == 0 {
        return after(node::skip(*s, start, parts));
    }
    let first = s[start] as usize;
    if reduces(tag, first) {
        return redex(at);
    }
    if parts == 1 {
        return seek(s, start);
    }
    let r = seek(s, start);
    if r % 2 == 1 {
        return r;
    }
    let next = r / 2;
    if enters == 1 {
        return after(node::skip(*s, next, parts - 1));
    }
    seek(s, next)
}

// The place of the first redex of the term at `at`; or, where there is none, the place after the term.
pub fn find(s: &[u8], at: usize) -> Result<usize, usize>
    requires { (t : Term) × TermAt s.now at t }
    ensures { (t : Term) → TermAt s.now at t → result ≡ sought at t }
{
    let r = seek(&s, at);
    let place = r / 2;
    if r % 2 == 1 {
        return Ok(place);
    }
    Err(place)
}
