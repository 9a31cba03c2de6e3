// Reads a rule's tag, by what the rule carries.
ghost use Rattle.std.specs.Prelude.{◌≡◌, ◌<◌, ◌≤◌, length, drop, OnOk, IfErr};
ghost use Rattle.rules.specs.declared.Reason.TheVariants.{EndsInside};
ghost use Rattle.rules.specs.Layout.{head_by_tag};
ghost use Rattle.rules.specs.Proof.{rule_heads};
ghost use Rattle.rules.specs.Reading.{tag as tag_of};
ghost use Rattle.proof.specs.Seen.{carried_of, tag_seen};

use crate::rule_tag::{AXIOM, BLUR, CUT, FOCUS_NEGATIVE, FOCUS_POSITIVE};
use rules::{Fault, Reason};

// What a rule carries: nothing, a formula (Cut), or an index (either Focus).
#[derive(Clone, Copy, Debug, PartialEq, Eq)]
pub enum Carries {
    Nothing,
    Formula,
    Index,
}

// None for a tag that is no rule's: asked by a guard, since with a range of tags in its place a check of proofs takes a tenth longer.
pub fn carried_by(tag: u8) -> Option<Carries>
    ensures { result ≡ carried_of (head_by_tag rule_heads tag) }
{
    match tag {
        CUT => Some(Carries::Formula),
        FOCUS_POSITIVE | FOCUS_NEGATIVE => Some(Carries::Index),
        _ if tag < AXIOM || BLUR < tag => None,
        _ => Some(Carries::Nothing),
    }
}

// There is a byte at a place, or else the input ends there. It hands back no byte, with which a check of proofs takes 5 % longer.
pub(crate) fn expect_byte(s: &[u8], at: usize) -> Result<(), Fault>
    ensures ok { OnOk result (at < length s.now) }
    ensures err { IfErr result (λ f. (length s.now ≤ at) × (f ≡ record { reason = EndsInside; place = at })) }
{
    if s.len() <= at {
        return Err(Fault {
            reason: Reason::EndsInside,
            place: at,
        });
    }
    Ok(())
}

// The tag at a place, where `used` rules were met before.
pub fn read_tag(s: &[u8], at: usize, used: usize, most: usize) -> Result<Carries, Fault>
    ensures { result ≡ tag_seen (tag_of most (head_by_tag rule_heads) used at (drop at s.now)) }
{
    expect_byte(s, at)?;
    if most <= used {
        return Err(Fault {
            reason: Reason::OneTooMany,
            place: at,
        });
    }
    carried_by(s[at]).ok_or(Fault {
        reason: Reason::NotListed,
        place: at,
    })
}
