// Reads encoded proofs: accepted with their count of rules, or refused by number and place.
#![tactic(auto)]

ghost use Rattle.std.specs.Prelude.{◌≡◌};
ghost use Rattle.rules.specs.Limits.{limits};
ghost use Rattle.rules.specs.Refusal.{mapped};
ghost use Rattle.rules.specs.Proof.{rules as rule_count};
ghost use Rattle.rules.specs.Reading.{read_proof};
ghost use Rattle.rules.specs.Calls.{check_proof_call};

use one_number::told;
use premises::read_rule;
use reader::class::{Form, table_of};
use reader::refused;
use rules::{MOST_BYTES, Reason, Refusal};

pub mod conclusion;
mod one_number;
mod premises;
pub mod reached;
pub mod rule;
pub mod rule_tag;
pub mod tag;

// An input of a call with several: whether it is a proof, with its count of rules.
pub fn proof_input(s: &[u8], input: u8) -> Result<usize, Refusal>
    ensures { result ≡ mapped rule_count (read_proof limits input s.now) }
{
    if MOST_BYTES < s.len() {
        return refused(Reason::InputTooLong, MOST_BYTES, input);
    }
    let t = table_of(Form::Formula);
    match told(read_rule(&s, &t, 0, 0, 0)) {
        Ok(end) => end.at_end(s.len(), input),
        Err(fault) => Err(fault.of_input(input)),
    }
}

// Kept: a call of its own beside those of reader, as docs/PROMISES.md has them.
pub fn check_proof(proof: &[u8]) -> Result<usize, Refusal>
    ensures { result ≡ check_proof_call limits proof.now }
{
    proof_input(proof, 1)
}
