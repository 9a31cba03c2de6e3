// Whether a term is straight.
ghost use Rattle.std.specs.Prelude.{◌≡◌};
ghost use Rattle.rules.specs.Limits.{limits};
ghost use Rattle.rules.specs.Calls.{is_straight_call};
ghost use Rattle.entry.specs.Told.{told_verdict};

use crate::tell::tell_verdict;

pub fn patch_is_straight(term: &[u8], answer: &mut [u64; 16])
    ensures { answer.new ≡ told_verdict (is_straight_call limits term.now) }
{
    tell_verdict(straight::is_straight(term), answer);
}
