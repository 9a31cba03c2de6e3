// The named form of extraction: an extractor that is lent and changed where it stands, and the cut entries a lent row.
ghost use Rattle.std.specs.Prelude.{◌≡◌, [], ◌≤◌, length};
ghost use Rattle.rules.specs.Limits.{limits, entry_room, most_counter};
ghost use Rattle.rules.specs.Proof.{Proof};
ghost use Rattle.rules.specs.Extraction.{terms, extract as extract_of};
ghost use Rattle.rules.specs.Calls.{start_call, extract_call};
ghost use Rattle.proof_draft.specs.Entries.{none, zeroed, pairs};
ghost use Rattle.extract.specs.Whole.{Checked};
ghost use Rattle.extract.specs.Ending.{Extracts, Closes};

use crate::ending::{Ended, begin, close};
use draft::row::NO_ROW;
use proof_draft::entry::{CutEntry, NO_ENTRY};
use proof_draft::walk::draft_rule;
use rules::{MOST_RULES, Refusal};

#[derive(Clone, Copy)]
pub struct Extractor {
    pub counter: u32,
}

impl Extractor {
    pub fn new(counter: u32) -> Self
        ensures { result.counter ≡ start_call counter }
    {
        Self { counter }
    }

    // The term of a proof: its bytes in out, with zeros behind them. Where it is refused, the counter stays as it was.
    pub fn extract(
        &mut self,
        proof: &[u8],
        entries: &mut [CutEntry],
        out: &mut [u8],
        scratch: &mut [u8],
    ) -> Result<usize, Refusal>
        ensures { Extracts (extract_call limits self.old.counter proof.now out.old scratch.old (pairs entries.old))
            result out.new scratch.new (pairs entries.new) self.new.counter }
    {
        let end = extract_with(self.counter, proof, entries, out, scratch);
        self.counter = end.counter;
        end.answer
    }
}

// A checked proof is walked over the row, with rows for the most rules; then the entries are set to zeros, or not.
fn walk_proof(
    counter: u32,
    proof: &[u8],
    entries: &mut [CutEntry],
    out: &mut [u8],
    scratch: &mut [u8],
) -> Ended
    requires { (p : Proof) × Checked proof.now out.old limits.rules p × (entry_room limits ≤ length entries.old) × (counter ≤ most_counter) }
    ensures { (entries.new ≡ zeroed none result.clears entries.old) × ((p : Proof) → Checked proof.now out.old limits.rules p
        → Closes counter (length entries.old) (extract_of terms p [] counter) out.old scratch.old result out.new scratch.new) }
{
    let mut rows = [NO_ROW; MOST_RULES];
    let start = counter as usize;
    let draft = draft_rule(proof, 0, entries, 0, &mut rows, 0, start);
    let room = entries.len();
    let end = close(counter, room, proof, &rows, draft, out, scratch);
    entries[..end.clears].fill(NO_ENTRY);
    end
}

// An extraction over the row itself, from a counter. What is refused before the walk leaves the row as it was.
fn extract_with(
    counter: u32,
    proof: &[u8],
    entries: &mut [CutEntry],
    out: &mut [u8],
    scratch: &mut [u8],
) -> Ended
    ensures { Extracts (extract_call limits counter proof.now out.old scratch.old (pairs entries.old))
        result.answer out.new scratch.new (pairs entries.new) result.counter }
{
    match begin(counter, entries.len(), proof, out, scratch) {
        Some(end) => end,
        None => walk_proof(counter, proof, entries, out, scratch),
    }
}
