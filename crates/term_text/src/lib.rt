// The text of a term.
#![tactic(auto)]

ghost use Rattle.std.specs.Prelude.{◌≡◌};
ghost use Rattle.rules.specs.Limits.{limits};
ghost use Rattle.rules.specs.Calls.{text_call};

use buffer::run;
use rules::{Reason, Refusal, TEXT_ROOM};
use walk::walk;

pub mod phrase;
pub mod walk;

// The term's text, then zeros.
// Kept: beside formula_text's, as docs/PROMISES.md has them: the rooms, the readers and the walks are others.
pub fn pretty(term: &[u8], out: &mut [u8]) -> Result<usize, Refusal>
    ensures value { result ≡ (text_call limits term.now out.old).answer }
    ensures out_after { out.new ≡ (text_call limits term.now out.old).output }
{
    if out.len() < TEXT_ROOM {
        return Err(Refusal::of_no_input(Reason::ShortBuffer));
    }
    reader::check_term(term)?;
    let past = walk(term, 0, out, 0) / 65536;
    run::clear(out, past);
    Ok(past)
}
