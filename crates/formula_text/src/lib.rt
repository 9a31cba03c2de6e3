// The text of a formula.
#![tactic(auto)]

ghost use Rattle.std.specs.Prelude.{◌≡◌};
ghost use Rattle.rules.specs.Limits.{limits};
ghost use Rattle.rules.specs.Calls.{formula_text_call};

use buffer::run;
use rules::{FORMULA_TEXT_ROOM, Reason, Refusal};
use walk::walk;

mod shape;
pub mod sign;
pub mod walk;

// The formula's text, then zeros.
// Kept: beside term_text's, as docs/PROMISES.md has them: the rooms, the readers and the walks are others.
pub fn pretty(formula: &[u8], out: &mut [u8]) -> Result<usize, Refusal>
    ensures value { result ≡ (formula_text_call limits formula.now out.old).answer }
    ensures out_after { out.new ≡ (formula_text_call limits formula.now out.old).output }
{
    if out.len() < FORMULA_TEXT_ROOM {
        return Err(Refusal::of_no_input(Reason::ShortBuffer));
    }
    reader::check_formula(formula)?;
    let past = walk(formula, 0, out, 0) / 65536;
    run::clear(out, past);
    Ok(past)
}
