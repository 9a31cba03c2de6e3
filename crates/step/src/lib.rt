// One step of a term, and whether there is one: the public calls.
#![tactic(auto)]

ghost use Rattle.std.specs.Prelude.{◌≡◌, ◌≤◌, length};
ghost use Rattle.rules.specs.Limits.{limits, scratch_room};
ghost use Rattle.rules.specs.Term.{Term};
ghost use Rattle.rules.specs.Step.{step as step_of};
ghost use Rattle.rules.specs.Calls.{step_call, is_normal_call};
ghost use Rattle.term.specs.Given.{Reads};
ghost use Rattle.step.specs.Answers.{step_answered, Stepping};

use buffer::room::short;
use buffer::run;
use redex::read::{Resting, none_left, read_resting};
use rules::{Reason, Refusal, Rule};
use take::take_step;

mod take;

// The rule, its place (the offset of the contracted node's tag in the given term), and the length of the next term.
#[derive(Clone, Copy)]
pub struct Found {
    pub rule: Rule,
    pub place: usize,
    pub length: usize,
}

#[derive(Clone, Copy)]
pub enum Stepped {
    Normal,
    Found(Found),
}

// A step of a term that was read: zeros behind the next term, and in the scratch.
fn step_read(
    term: &[u8],
    nodes: usize,
    out: &mut [u8],
    scratch: &mut [u8],
) -> Result<Stepped, Refusal>
    requires { ((t : Term) × Reads term.now nodes out.old t) × (scratch_room limits ≤ length scratch.old) }
    ensures { (t : Term) → Reads term.now nodes out.old t → Stepping (step_of t) out.old scratch.old result out.new scratch.new }
{
    let stepped = take_step(term, nodes, out, scratch);
    run::clear(scratch, 0);
    let step = stepped?;
    if let Stepped::Found(found) = step {
        run::clear(out, found.length);
    }
    Ok(step)
}

// The next term, written to out, with zeros behind it; or Normal, and out untouched.
pub fn step(term: &[u8], out: &mut [u8], scratch: &mut [u8]) -> Result<Stepped, Refusal>
    ensures value { result ≡ step_answered (step_call limits term.now out.old scratch.old).answer }
    ensures out_after { out.new ≡ (step_call limits term.now out.old scratch.old).output }
    ensures scratch_after { scratch.new ≡ (step_call limits term.now out.old scratch.old).scratch }
{
    if short(out.len(), scratch.len()) {
        return Err(Refusal::of_no_input(Reason::ShortBuffer));
    }
    let nodes = reader::term_input(term, 1)?;
    step_read(term, nodes, out, scratch)
}

// Whether step finds nothing.
pub fn is_normal(term: &[u8]) -> Result<bool, Refusal>
    ensures { result ≡ is_normal_call limits term.now }
{
    match read_resting(term, 1)? {
        Resting::Unsure(_) => Ok(none_left(term)),
        Resting::Calm(_) => Ok(true),
    }
}
