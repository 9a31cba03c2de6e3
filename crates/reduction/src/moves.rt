// The moves of the search: into a node, on behind a term that has no step, and up. A move breaks off where the search has come to the
// end: the whole, of so many bytes, has no step.
ghost use Rattle.rules.specs.Term.{Term};
ghost use Rattle.reduction.specs.Standing.{Standing, Done, Entering, Passing, Reaches, Goes, Finds};

use crate::place::{Mark, Place};
use crate::sight::{Seen, see};
use buffer::run;
use redex::tags::enters_of;
use std::ops::ControlFlow;
use term::node;

// Into the node at `place`: its head is carried over, and the search stands at its first part.
fn enter(scratch: &[u8], place: Place, start: usize, out: &mut [u8], stack: &mut [Mark]) -> Place
    requires { (w : Term) × Entering w out.old scratch.now stack.old place start }
    ensures { (w : Term) → Entering w out.old scratch.now stack.old place start → Reaches w out.new scratch.now stack.new start result }
{
    let depth = place.depth;
    let o = place.o;
    stack[depth] = Some(o as u16);
    Place {
        o: run::copy(scratch, place.i, start, out, o),
        i: start,
        depth: depth + 1,
    }
}

// Up from a term that has no step: to the next part that is entered, or to the end.
fn climb(
    scratch: &[u8],
    from: Place,
    out: &mut [u8],
    stack: &mut [Mark],
) -> ControlFlow<usize, Place>
    requires { (w : Term) × Done w out.old scratch.now stack.old from }
    ensures { (w : Term) → Done w out.old scratch.now stack.old from → Goes w out.new scratch.now stack.new from.i result }
{
    let mut i = from.i;
    let mut o = from.o;
    for top in (0..from.depth).rev() {
        let Some(start) = stack[top] else {
            continue;
        };
        let tag = out[start as usize] as usize;
        if enters_of(tag) == 2 {
            stack[top] = None;
            return ControlFlow::Continue(Place {
                o,
                i,
                depth: top + 1,
            });
        }
        let next = node::skip(scratch, i, node::parts_of(tag) - 1);
        o = run::copy(scratch, i, next, out, o);
        i = next;
    }
    ControlFlow::Break(o)
}

// On behind the term at `place`, which has no step and ends at `next`.
fn pass(
    scratch: &[u8],
    place: Place,
    next: usize,
    out: &mut [u8],
    stack: &mut [Mark],
) -> ControlFlow<usize, Place>
    requires { (w : Term) × Passing w out.old scratch.now stack.old place next }
    ensures { (w : Term) → Passing w out.old scratch.now stack.old place next → Goes w out.new scratch.now stack.new next result }
{
    let behind = Place {
        o: run::copy(scratch, place.i, next, out, place.o),
        i: next,
        depth: place.depth,
    };
    climb(scratch, behind, out, stack)
}

// Goes on to the first redex, or to the end.
pub fn to_redex(
    scratch: &[u8],
    from: Place,
    out: &mut [u8],
    stack: &mut [Mark],
) -> ControlFlow<usize, Place>
    requires { (w : Term) × Standing w out.old scratch.now stack.old from }
    ensures { (w : Term) → Standing w out.old scratch.now stack.old from → Finds w out.new scratch.now stack.new result }
{
    let mut place = from;
    loop {
        place = match see(scratch, place.i) {
            Seen::Redex => return ControlFlow::Continue(place),
            Seen::Inside(start) => enter(scratch, place, start, out, stack),
            Seen::Passed(next) => pass(scratch, place, next, out, stack)?,
        };
    }
}
