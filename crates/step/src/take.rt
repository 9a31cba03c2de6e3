// One step of a term that was read: the first redex is found and contracted, and what it becomes goes between what stands around it.
ghost use Rattle.std.specs.Prelude.{◌≤◌, length};
ghost use Rattle.rules.specs.Limits.{limits, output_room};
ghost use Rattle.rules.specs.Term.{Term};
ghost use Rattle.rules.specs.Step.{step};
ghost use Rattle.term.specs.Given.{Reads};
ghost use Rattle.step.specs.Taken.{Framed, contracted, Takes};

use crate::{Found, Stepped};
use buffer::run;
use contraction::contract;
use redex::find::find;
use rules::{MOST_NODES, Reason, Refusal};

// Contracts the redex at `place`; `work` is room to work in.
fn contract_at(
    src: &[u8],
    nodes: usize,
    place: usize,
    out: &mut [u8],
    work: &mut [u8],
) -> Result<Stepped, Refusal>
    requires { ((f : Term → Term) × (t : Term) × Framed src.now nodes place out.old f t) × (output_room limits ≤ length work.old) }
    ensures { (f : Term → Term) → (t : Term) → Framed src.now nodes place out.old f t → Takes (contracted place f t) out.old out.new result }
{
    let mut places = [0u16; MOST_NODES];
    match contract(src, place, nodes, src.len(), &mut places, work) {
        None => Err(Refusal::of_no_input(Reason::Outgrows)),
        Some(made) => {
            let before = run::copy(src, 0, place, out, 0);
            let middle = run::copy(work, 0, made.size, out, before);
            let length = run::copy(src, made.end, src.len(), out, middle);
            let rule = made.rule;
            Ok(Stepped::Found(Found {
                rule,
                place,
                length,
            }))
        }
    }
}

// One step of the term src, which has so many nodes; out is written only where a redex is found and the result fits.
pub fn take_step(
    src: &[u8],
    nodes: usize,
    out: &mut [u8],
    work: &mut [u8],
) -> Result<Stepped, Refusal>
    requires { ((t : Term) × Reads src.now nodes out.old t) × (output_room limits ≤ length work.old) }
    ensures { (t : Term) → Reads src.now nodes out.old t → Takes (step t) out.old out.new result }
{
    match find(src, 0) {
        Err(_) => Ok(Stepped::Normal),
        Ok(place) => contract_at(src, nodes, place, out, work),
    }
}
