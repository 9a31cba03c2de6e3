// A redex is contracted where the search stands. What it becomes is put in its place, at the start of what the search has yet to see.
ghost use Rattle.rules.specs.Term.{Term};
ghost use Rattle.reduction.specs.Standing.{Standing, Landed};
ghost use Rattle.reduction.specs.Fired.{Firing, Fires};

use crate::place::{Mark, Place};
use crate::room::Room;
use buffer::run;
use contraction::part::Contraction;
use redex::tags::reduces;

// What the contraction made, and where the search goes on.
#[derive(Clone, Copy)]
pub struct Fired {
    pub contraction: Contraction,
    pub place: Place,
}

// A new term stands at `here`: if it makes a redex of the node above, that node's head comes back, and the search stands at it.
fn wake(out: &[u8], scratch: &mut [u8], here: Place, stack: &[Mark]) -> Place
    requires { (w : Term) × Landed w out.now scratch.old stack.now here }
    ensures { (w : Term) → Landed w out.now scratch.old stack.now here → Standing w out.now scratch.new stack.now result }
{
    if here.depth == 0 {
        return here;
    }
    let o = here.o;
    let i = here.i;
    let top = here.depth - 1;
    let Some(mark) = stack[top] else {
        return here;
    };
    let start = mark as usize;
    if reduces(out[start] as usize, scratch[i] as usize) {
        let back = i - (o - start);
        run::copy(out, start, o, scratch, back);
        return Place {
            o: start,
            i: back,
            depth: top,
        };
    }
    here
}

// Contracts the redex at `at`, in a whole of so many nodes. What was written is put in front of what stays of the redex.
// None: the step would outgrow the limits.
pub fn fire(
    out: &[u8],
    scratch: &mut [u8],
    at: Place,
    stack: &[Mark],
    nodes: usize,
    room: &mut Room,
) -> Option<Fired>
    requires { (w : Term) × Firing w out.now scratch.old stack.now at nodes }
    ensures { (w : Term) → Firing w out.now scratch.old stack.now at nodes → Fires w out.now scratch.new stack.now at result }
{
    let length = at.o + (scratch.len() - at.i);
    match contraction::contract(
        scratch,
        at.i,
        nodes,
        length,
        &mut room.places,
        &mut room.made,
    ) {
        None => None,
        Some(contraction) => {
            let size = contraction.size;
            let start = contraction.end - size;
            run::copy(&room.made, 0, size, scratch, start);
            let here = Place { i: start, ..at };
            let place = wake(out, scratch, here, stack);
            Some(Fired { contraction, place })
        }
    }
}
