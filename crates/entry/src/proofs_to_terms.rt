// The term of a proof.
ghost use Rattle.std.specs.Prelude.{◌≡◌, List, ◌≤◌, length};
ghost use Rattle.rules.specs.Limits.{limits, entry_room};
ghost use Rattle.rules.specs.Calls.{Entry, extract_call};
ghost use Rattle.extract.specs.Whole.{extraction};
ghost use Rattle.entry.specs.Extraction.{told_extraction};

use crate::tell::tell_extraction;
use extract::extract;

// The cut entries are the call's own, so no row of them is lent, and none can be too short.
pub fn patch_extract(
    proof: &[u8],
    counter: u32,
    out: &mut [u8],
    scratch: &mut [u8],
    answer: &mut [u64; 16],
)
    ensures answer_after { (es : List Entry) → entry_room limits ≤ length es
        → answer.new ≡ told_extraction (extraction (extract_call limits counter proof.now out.old scratch.old es).answer
        (extract_call limits counter proof.now out.old scratch.old es).counter) }
    ensures out_after { (es : List Entry) → entry_room limits ≤ length es
        → out.new ≡ (extract_call limits counter proof.now out.old scratch.old es).output }
    ensures scratch_after { (es : List Entry) → entry_room limits ≤ length es
        → scratch.new ≡ (extract_call limits counter proof.now out.old scratch.old es).scratch }
{
    tell_extraction(extract(counter, proof, out, scratch), answer);
}
