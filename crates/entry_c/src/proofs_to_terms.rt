// The term of a proof.
ghost use Rattle.std.specs.Prelude.{◌≡◌, List, ◌≤◌, length};
ghost use Rattle.rules.specs.Limits.{limits, entry_room};
ghost use Rattle.rules.specs.Calls.{Entry, extract_call};
ghost use Rattle.extract.specs.Whole.{extraction};
ghost use Rattle.entry.specs.Extraction.{told_extraction};

#[unsafe(no_mangle)]
pub extern "C" fn patch_extract(
    proof: &[u8],
    counter: u32,
    out: &mut [u8],
    scratch: &mut [u8],
    answer: &mut [u64; 16],
)
    ensures answer_after { (es : List Entry) → entry_room limits ≤ length es
        → answer.new ≡ told_extraction (extraction (extract_call limits counter proof.now out.old scratch.old es).answer
        (extract_call limits counter proof.now out.old scratch.old es).counter) }
    ensures out_after { (es : List Entry) → entry_room limits ≤ length es
        → out.new ≡ (extract_call limits counter proof.now out.old scratch.old es).output }
    ensures scratch_after { (es : List Entry) → entry_room limits ≤ length es
        → scratch.new ≡ (extract_call limits counter proof.now out.old scratch.old es).scratch }
{
    entry::proofs_to_terms::patch_extract(proof, counter, out, scratch, answer);
}
