// Bounded reduction: a term is read once, steps are taken up to the limit, and the last term stands in the output with zeros behind it.
#![tactic(auto)]

ghost use Rattle.std.specs.Prelude.{◌≡◌, ◌≤◌, length};
ghost use Rattle.rules.specs.Limits.{limits, scratch_room};
ghost use Rattle.rules.specs.Term.{Term};
ghost use Rattle.rules.specs.Reduction.{reduce};
ghost use Rattle.rules.specs.Calls.{reduce_call};
ghost use Rattle.term.specs.Given.{Reads};
ghost use Rattle.reduction.specs.Answers.{reduced_by, Reducing};

use buffer::room::{leave, short};
use course::Outgrown;
use repeat::repeat_steps;
use rules::{Counts, Reason, Refusal};

mod course;
mod land;
mod moves;
mod place;
mod repeat;
mod room;
mod sight;

// The steps taken, one count for each rule, whether no step remains, and the length of the term in the output.
// Kept: a flag, since the counts and the length are told whether or not a step remains.
#[derive(Clone, Copy)]
pub struct Reduction {
    pub steps: u32,
    pub counts: Counts,
    pub normal: bool,
    pub length: usize,
}

// A refusal, and the length of what was written: 8 leaves the last term that fitted.
#[derive(Clone, Copy)]
pub struct Unreduced {
    pub refusal: Refusal,
    pub length: usize,
}

// The reduction of a term that was read: zeros behind what stands in the output, and in the scratch.
fn reduce_read(
    term: &[u8],
    nodes: usize,
    limit: u32,
    out: &mut [u8],
    scratch: &mut [u8],
) -> Result<Reduction, Unreduced>
    requires { ((t : Term) × Reads term.now nodes out.old t) × (scratch_room limits ≤ length scratch.old) }
    ensures { (t : Term) → Reads term.now nodes out.old t → Reducing (reduce limits limit t) out.old scratch.old result out.new scratch.new }
{
    match repeat_steps(term, nodes, limit, out, scratch) {
        Ok(reduction) => {
            leave(out, reduction.length, scratch);
            Ok(reduction)
        }
        Err(Outgrown { steps, length }) => {
            leave(out, length, scratch);
            Err(Unreduced {
                refusal: Refusal {
                    reason: Reason::Outgrows,
                    place: steps as usize,
                    input: 0,
                },
                length,
            })
        }
    }
}

// Steps up to the limit. A step past the limit is not tried; 8 gives the steps done, and leaves the last term that fitted.
pub fn normalize_bounded(
    term: &[u8],
    limit: u32,
    out: &mut [u8],
    scratch: &mut [u8],
) -> Result<Reduction, Unreduced>
    ensures value { result ≡ reduced_by (reduce_call limits term.now limit out.old scratch.old).answer (reduce_call limits term.now limit out.old scratch.old).output_length }
    ensures out_after { out.new ≡ (reduce_call limits term.now limit out.old scratch.old).output }
    ensures scratch_after { scratch.new ≡ (reduce_call limits term.now limit out.old scratch.old).scratch }
{
    if short(out.len(), scratch.len()) {
        return Err(Unreduced {
            refusal: Refusal::of_no_input(Reason::ShortBuffer),
            length: 0,
        });
    }
    match reader::term_input(term, 1) {
        Err(refusal) => Err(Unreduced { refusal, length: 0 }),
        Ok(nodes) => reduce_read(term, nodes, limit, out, scratch),
    }
}
