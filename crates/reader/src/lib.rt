// Reads encoded terms, formulas and bare names: accepted with a count, or refused by number and place.
#![tactic(auto)]

ghost use Rattle.std.specs.Prelude.{◌≡◌, ◌≤◌, length};
ghost use Rattle.rules.specs.Limits.{Limits, limits};
ghost use Rattle.rules.specs.Refusal.{refuse, mapped};
ghost use Rattle.rules.specs.Term.{nodes as node_count};
ghost use Rattle.rules.specs.Formula.{formula_nodes};
ghost use Rattle.rules.specs.Reading.{read_term, read_formula, read_name};
ghost use Rattle.rules.specs.Calls.{check_term_call, check_formula_call};
ghost use Rattle.reader.specs.Form.{count_of, most_of, read_of};

use ahead::read_from;
use class::{Form, letter_table, longest_name, table_of};
use name::skip_spelled;
use rules::{MOST_BYTES, MOST_FORMULA_NODES, MOST_NODES, Reason, Refusal};

pub mod ahead;
pub mod class;
pub mod formula_tag;
pub mod letters;
pub mod name;
pub mod node;
pub mod word;

pub fn refused<T>(reason: Reason, place: usize, input: u8) -> Result<T, Refusal>
    ensures { result ≡ refuse reason place input }
{
    Err(Refusal {
        reason,
        place,
        input,
    })
}

// Whether s is one of that form, of at most so many bytes and nodes; with its count of nodes.
fn check_within(
    s: &[u8],
    form: Form,
    bytes: usize,
    most: usize,
    input: u8,
) -> Result<usize, Refusal>
    requires { most ≤ 65536 }
    ensures { (L : Limits) → L.bytes ≡ bytes → most_of form L ≡ most → result ≡ mapped (count_of form) (read_of form L input s.now) }
{
    if bytes < s.len() {
        return refused(Reason::InputTooLong, bytes, input);
    }
    let t = table_of(form);
    match read_from(s, form, &t, 0, 0, most) {
        Ok(past) => {
            if past.next < s.len() {
                refused(Reason::LeftOver, past.next, input)
            } else {
                Ok(past.met)
            }
        }
        Err(fault) => Err(fault.of_input(input)),
    }
}

// An input of a call with several.
// Kept: a function for each kind of input and each call, which docs/PROMISES.md promises one by one.
pub fn term_input(s: &[u8], input: u8) -> Result<usize, Refusal>
    ensures { result ≡ mapped node_count (read_term limits input s.now) }
{
    check_within(s, Form::Term, MOST_BYTES, MOST_NODES, input)
}

pub fn formula_input(s: &[u8], input: u8) -> Result<usize, Refusal>
    ensures { result ≡ mapped formula_nodes (read_formula limits input s.now) }
{
    check_within(s, Form::Formula, MOST_BYTES, MOST_FORMULA_NODES, input)
}

pub fn check_term(term: &[u8]) -> Result<usize, Refusal>
    ensures { result ≡ check_term_call limits term.now }
{
    term_input(term, 1)
}

pub fn check_formula(formula: &[u8]) -> Result<usize, Refusal>
    ensures { result ≡ check_formula_call limits formula.now }
{
    formula_input(formula, 1)
}

// A bare name: it has no length byte, and is accepted with its length.
pub fn name_input(s: &[u8], input: u8) -> Result<usize, Refusal>
    ensures { result ≡ mapped length (read_name input s.now) }
{
    if s.len() < 1 {
        return refused(Reason::BadName, 0, input);
    }
    if longest_name(Form::Term) < s.len() {
        return refused(Reason::BadName, 0, input);
    }
    let t = letter_table();
    match skip_spelled(s, Form::Term, &t, 0, s.len()) {
        Ok(next) => Ok(next),
        Err(fault) => Err(fault.of_input(input)),
    }
}
