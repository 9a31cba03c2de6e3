// The draft of a whole proof, over a row of cut entries of the call's own.
ghost use Rattle.std.specs.Prelude.{[], ◌≤◌};
ghost use Rattle.rules.specs.Limits.{limits, entry_room};
ghost use Rattle.rules.specs.Proof.{Proof};
ghost use Rattle.proof_draft.specs.Walk.{Done};
ghost use Rattle.proof_draft.specs.Whole.{Whole};

use crate::entry::NO_ENTRY;
use crate::put::Drafted;
use crate::walk::draft_rule;
use draft::row::Row;

// A proof of at most so many rules has few.
pub const FEW_RULES: usize = 64;

// A proof of at most MOST rules. An array is set to zeros where it is made, so that a row for the most rules would cost more than the work of a proof of few.
pub fn draft_whole<const MOST: usize>(s: &[u8], rows: &mut [Row], counter: usize) -> Drafted
    requires { (MOST ≤ entry_room limits) × ((p : Proof) × Whole s.now MOST rows.old counter p) }
    ensures { (p : Proof) → Whole s.now MOST rows.old counter p → Done s.now 0 rows.old rows.new 0 counter p [] result }
{
    let mut row = [NO_ENTRY; MOST];
    draft_rule(s, 0, &mut row, 0, rows, 0, counter)
}
