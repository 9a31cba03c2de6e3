// The children of a term, as parts of the caller's own bytes.
ghost use Rattle.std.specs.Prelude.{◌≡◌};
ghost use Rattle.rules.specs.Limits.{limits};
ghost use Rattle.rules.specs.Calls.{locate_call, child_call, child_start, child_fault_call};
ghost use Rattle.term.specs.Child.{told, StartsIn};

use crate::node::{parts_at, skip};
use rules::{Places, Reason, Refusal};

// Where child k stands, counted from 0.
pub fn locate(term: &[u8], k: usize) -> Result<Places, Refusal>
    ensures { result ≡ locate_call limits term.now k }
{
    reader::check_term(term)?;
    let row = parts_at(term, 0);
    if row.parts <= k {
        return Err(Refusal::of_no_input(Reason::NoSuchChild));
    }
    let from = skip(term, row.start, k);
    let end = skip(term, from, 1);
    Ok(Places { from, end })
}

// The part of the term that is child k, counted from 0; refused, an empty part.
pub fn child(term: &[u8], k: usize) -> &[u8]
    ensures result_value { result.now ≡ child_call limits term.now k }
    ensures starts_in { StartsIn term.entry (child_start limits term.now k) result }
{
    match locate(term, k) {
        Ok(places) => &term[places.from..places.end],
        Err(_) => &term[0..0],
    }
}

// What is wrong, if anything is, with the term and k that a child was asked for.
pub fn child_fault(term: &[u8], k: usize) -> Option<Refusal>
    ensures { result ≡ told (child_fault_call limits term.now k) }
{
    locate(term, k).err()
}
