// The free names of a term: gathered in one walk, and written in their order.
#![tactic(auto)]

ghost use Rattle.std.specs.Prelude.{◌≡◌, List, length};
ghost use Rattle.rules.specs.Name.{Name, encode_names};
ghost use Rattle.rules.specs.Term.{Term};
ghost use Rattle.rules.specs.Limits.{limits};
ghost use Rattle.rules.specs.Calls.{free_vars_call};
ghost use Rattle.buffer.specs.Wrote.{Wrote};
ghost use Rattle.free.specs.Rows.{Writes};
ghost use Rattle.free.specs.Whole.{Lists, Listed};

use buffer::run;
use gather::gather;
use row::{NameRow, ROW_END};
use rules::{OUTPUT_ROOM, Reason, Refusal};
use slot::BINDERS;

pub mod gather;
pub mod order;
pub mod row;
pub mod slot;

// Writes the names at these places, each with its length byte.
fn write_names(s: &[u8], places: &[u16], out: &mut [u8]) -> usize
    requires { (xs : List Name) × Writes s.now places.now (length places.now) out.old xs }
    ensures { (xs : List Name) → Writes s.now places.now (length places.now) out.old xs → Wrote out.old 0 (encode_names xs) out.new result }
{
    let mut to = 0;
    for place in places {
        let from = *place as usize;
        let end = from + 1 + s[from] as usize;
        to = run::copy(s, from, end, out, to);
    }
    to
}

// The free names of the whole term, written to out with zeros behind them; and how many bytes they take.
fn list_names(term: &[u8], out: &mut [u8]) -> usize
    requires { (t : Term) × Lists term.now out.old t }
    ensures { (t : Term) → Lists term.now out.old t → Listed t out.old out.new result }
{
    let mut row = NameRow {
        places: [0; ROW_END],
        found: 0,
    };
    gather(&term, 0, &mut row, BINDERS);
    let end = write_names(term, &row.places[..row.found], out);
    run::clear(out, end);
    end
}

// The names that are free in the term, each once, with its length byte, in order.
pub fn free_vars(term: &[u8], out: &mut [u8]) -> Result<usize, Refusal>
    ensures value { result ≡ (free_vars_call limits term.now out.old).answer }
    ensures out_after { out.new ≡ (free_vars_call limits term.now out.old).output }
{
    if out.len() < OUTPUT_ROOM {
        return Err(Refusal::of_no_input(Reason::ShortBuffer));
    }
    reader::term_input(term, 1)?;
    Ok(list_names(term, out))
}
