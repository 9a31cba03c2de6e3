// Steps up to the limit. The search for a redex goes on where the last contraction was: what it has passed stands in the output, what it has
// yet to see at the end of the scratch.
ghost use Rattle.std.specs.Prelude.{◌≤◌, ℕ, length};
ghost use Rattle.rules.specs.Limits.{limits, scratch_room};
ghost use Rattle.rules.specs.Term.{Term};
ghost use Rattle.rules.specs.Reduction.{reduce};
ghost use Rattle.term.specs.Given.{Reads};
ghost use Rattle.reduction.specs.Turning.{Stands, AtRedex, Repeats, Turns};

use crate::Reduction;
use crate::course::{Course, Outgrown, no_counts};
use crate::land::fire;
use crate::moves::to_redex;
use crate::place::{Mark, Place};
use crate::room::Room;
use buffer::run;
use rules::{MOST_BYTES, MOST_NODES};
use std::ops::ControlFlow;

// Contracts the redex at `place`. If that outgrows the limits, the last term that fitted is left in the output.
fn contract_here(
    course: Course,
    place: Place,
    out: &mut [u8],
    scratch: &mut [u8],
    stack: &[Mark],
    room: &mut Room,
) -> Result<Course, Outgrown>
    requires { (limit : ℕ) × (t : Term) × AtRedex limit t out.old scratch.old stack.now course place }
    ensures { (limit : ℕ) (t : Term) → AtRedex limit t out.old scratch.old stack.now course place → Turns limit t course.steps out.new scratch.new stack.now result }
{
    match fire(out, scratch, place, stack, course.nodes, room) {
        Some(fired) => Ok(course.one_more(fired.contraction, fired.place)),
        None => Err(Outgrown {
            steps: course.steps,
            length: run::copy(scratch, place.i, scratch.len(), out, place.o),
        }),
    }
}

// Reduces the whole in which the search stands, and leaves it in the output. A step past the limit is not tried.
fn go_on(
    from: Course,
    limit: u32,
    out: &mut [u8],
    scratch: &mut [u8],
    stack: &mut [Mark],
    room: &mut Room,
) -> Result<Reduction, Outgrown>
    requires { (t : Term) × Stands limit t out.old scratch.old stack.old from }
    ensures { (t : Term) → Stands limit t out.old scratch.old stack.old from → Repeats (reduce limits limit t) out.new result }
{
    let mut course = from;
    loop {
        match to_redex(scratch, course.at, out, stack) {
            ControlFlow::Break(length) => {
                return Ok(course.stopped(true, length));
            }
            ControlFlow::Continue(place) => {
                if course.steps == limit {
                    let length = run::copy(scratch, place.i, scratch.len(), out, place.o);
                    return Ok(course.stopped(false, length));
                }
                course = contract_here(course, place, out, scratch, stack, room)?;
            }
        }
    }
}

// The same, with room to work in.
fn with_room(
    from: Course,
    limit: u32,
    out: &mut [u8],
    scratch: &mut [u8],
    stack: &mut [Mark],
) -> Result<Reduction, Outgrown>
    requires { (t : Term) × Stands limit t out.old scratch.old stack.old from }
    ensures { (t : Term) → Stands limit t out.old scratch.old stack.old from → Repeats (reduce limits limit t) out.new result }
{
    let mut room = Room {
        places: [0; MOST_NODES],
        made: [0; MOST_BYTES],
    };
    go_on(from, limit, out, scratch, stack, &mut room)
}

// Reduces a term that was read. Room to contract is made only where there is a redex.
pub fn repeat_steps(
    term: &[u8],
    nodes: usize,
    limit: u32,
    out: &mut [u8],
    scratch: &mut [u8],
) -> Result<Reduction, Outgrown>
    requires { ((t : Term) × Reads term.now nodes out.old t) × (scratch_room limits ≤ length scratch.old) }
    ensures { (t : Term) → Reads term.now nodes out.old t → Repeats (reduce limits limit t) out.new result }
{
    let mut stack: [Mark; MOST_NODES] = [None; MOST_NODES];
    let begin = scratch.len() - term.len();
    run::copy(term, 0, term.len(), scratch, begin);
    let at = Place {
        o: 0,
        i: begin,
        depth: 0,
    };
    let from = Course {
        at,
        nodes,
        steps: 0,
        counts: no_counts(),
    };
    match to_redex(scratch, at, out, &mut stack) {
        ControlFlow::Break(length) => Ok(from.stopped(true, length)),
        ControlFlow::Continue(at) => {
            let course = Course { at, ..from };
            with_room(course, limit, out, scratch, &mut stack)
        }
    }
}
