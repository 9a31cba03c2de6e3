// Substitution: the places of the name are found in one walk, and the value is spliced in at them.
#![tactic(auto)]

ghost use Rattle.std.specs.Prelude.{◌≡◌};
ghost use Rattle.rules.specs.Limits.{limits};
ghost use Rattle.rules.specs.Term.{Term};
ghost use Rattle.rules.specs.Reading.{read_term, read_name};
ghost use Rattle.rules.specs.Calls.{substitute_call};
ghost use Rattle.substitution.specs.Work.{inputs, Job, Done};

use buffer::{room, run};
use put::{Body, Size, Value, put_in};
use rules::{MOST_NODES, Reason, Refusal};

pub mod place;
pub mod put;
pub mod splice;
pub mod tally;

// The inputs of a substitution: how many nodes the term has, and the value.
#[derive(Clone, Copy)]
struct Inputs {
    nodes: usize,
    added: usize,
}

// Reads the inputs, in the order of the arguments.
fn read_inputs(term: &[u8], name: &[u8], value: &[u8]) -> Result<Inputs, Refusal>
    ensures { result ≡ inputs (read_term limits 1 term.now) (read_name 2 name.now) (read_term limits 3 value.now) }
{
    let nodes = reader::term_input(term, 1)?;
    reader::name_input(name, 2)?;
    let added = reader::term_input(value, 3)?;
    Ok(Inputs { nodes, added })
}

// The term with the value at each place where the name is free, if it fits.
fn replace(
    term: &[u8],
    nodes: usize,
    name: &[u8],
    value: &[u8],
    added: usize,
    out: &mut [u8],
    scratch: &mut [u8],
) -> Result<usize, Refusal>
    requires { (t : Term) × (v : Term) × Job term.now name.now value.now out.old nodes added t v }
    ensures { (t : Term) → (v : Term) → Job term.now name.now value.now out.old nodes added t v → Done name.now t v out.old scratch.old result out.new scratch.new }
{
    run::clear(scratch, 0);
    let mut row = [0u16; MOST_NODES];
    let found = place::find_places(term, name, &mut row);
    let body = Body {
        bytes: term,
        places: &row[..found.count],
        gap: found.gap,
    };
    let value = Value {
        bytes: value,
        nodes: added,
    };
    let whole = Size {
        nodes,
        bytes: term.len(),
    };
    match put_in(body, value, whole, out) {
        None => Err(Refusal::of_no_input(Reason::Outgrows)),
        Some(written) => {
            let size = written.tally.past();
            run::clear(out, size);
            Ok(size)
        }
    }
}

// The term with the value for the name, written to out, with zeros behind it.
pub fn substitute(
    term: &[u8],
    name: &[u8],
    value: &[u8],
    out: &mut [u8],
    scratch: &mut [u8],
) -> Result<usize, Refusal>
    ensures value { result ≡ (substitute_call limits term.now name.now value.now out.old scratch.old).answer }
    ensures out_after { out.new ≡ (substitute_call limits term.now name.now value.now out.old scratch.old).output }
    ensures scratch_after { scratch.new ≡ (substitute_call limits term.now name.now value.now out.old scratch.old).scratch }
{
    if room::short(out.len(), scratch.len()) {
        return Err(Refusal::of_no_input(Reason::ShortBuffer));
    }
    let inputs = read_inputs(term, name, value)?;
    replace(term, inputs.nodes, name, value, inputs.added, out, scratch)
}
