// Reads a term, and tells whether it is normal: by the way, or by the search.
ghost use Rattle.std.specs.Prelude.{◌≡◌, true};
ghost use Rattle.rules.specs.Term.{Term as TermOf, encode};
ghost use Rattle.rules.specs.Step.{step as step_of, is_normal_term};
ghost use Rattle.redex.specs.Swept.{Swept};
ghost use Rattle.redex.specs.Readings.{nodes_of, CalmRead, Reads};

use crate::ahead::go_calmly;
use crate::calm;
use crate::find::find;
use reader::ahead::read_on;
use reader::class::{Form, table_of};
use reader::refused;
use rules::{MOST_BYTES, MOST_NODES, Reason, Refusal};

// A term of so many nodes that has no redex, or one that may have some.
#[derive(Clone, Copy)]
pub enum Resting {
    Calm(usize),
    Unsure(usize),
}

// A term that was read with nothing seen that is a redex before `from`, if it was calm so far: the few nodes that are left are looked at too.
fn accepted(s: &[u8], nodes: usize, calm: bool, from: usize) -> Resting
    requires s_value { (t : TermOf) × (s.now ≡ encode t) }
    requires swept { calm ≡ true → Swept s.now from 0 }
    ensures { (nodes_of result ≡ nodes) × CalmRead s.now result }
{
    if calm && calm::calm(s, from) {
        return Resting::Calm(nodes);
    }
    Resting::Unsure(nodes)
}

// The reading of an input of a call.
pub fn read_resting(s: &[u8], input: u8) -> Result<Resting, Refusal>
    ensures { Reads s.now input result }
{
    if MOST_BYTES < s.len() {
        return refused(Reason::InputTooLong, MOST_BYTES, input);
    }
    let t = table_of(Form::Term);
    let passed = go_calmly(s, &t);
    match read_on(s, Form::Term, &t, 0, 0, MOST_NODES, 1, passed.gone) {
        Ok(past) => {
            if past.next < s.len() {
                refused(Reason::LeftOver, past.next, input)
            } else {
                Ok(accepted(s, past.met, passed.calm, passed.gone.next))
            }
        }
        Err(fault) => Err(fault.of_input(input)),
    }
}

// Whether a term that was read has no redex.
pub fn none_left(s: &[u8]) -> bool
    requires { (t : TermOf) × (s.now ≡ encode t) }
    ensures { (t : TermOf) → s.now ≡ encode t → result ≡ is_normal_term (step_of t) }
{
    find(s, 0).is_err()
}
