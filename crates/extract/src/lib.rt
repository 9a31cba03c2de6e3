// Extraction of terms from proofs: a walk over the checked proof makes a draft of the term (crates/proof_draft/src/walk.rt), and the term is measured and written from the draft.
#![tactic(auto)]

ghost use Rattle.std.specs.Prelude.{◌≡◌, List, [], ◌+◌, ◌≤◌, length};
ghost use Rattle.rules.specs.Limits.{limits, entry_room, most_counter};
ghost use Rattle.rules.specs.Proof.{Proof};
ghost use Rattle.rules.specs.Extraction.{terms, extract as extract_of};
ghost use Rattle.rules.specs.Calls.{Entry, extract_call};
ghost use Rattle.extract.specs.Whole.{extraction, Finished, Checked};

use buffer::room::short;
use draft::row::{FIRST_PARTS, NO_ROW};
use draft::size::NO_SIZE;
use finish::finish;
use proof_draft::own::{FEW_RULES, draft_whole};
use rules::{MOST_COUNTER, MOST_RULES, Reason, Refusal};

pub mod ending;
pub mod extractor;
pub mod finish;

// The bytes of the term, and the counter after it.
#[derive(Clone, Copy)]
pub struct Extraction {
    pub bytes: usize,
    pub counter: u32,
}

// Arrays are set to zeros where they are made, so that a proof of at most so many rules gets shorter ones.
const SOME_RULES: usize = 192;

// How many parts the draft of a proof of so many rules has: one for each rule, and those with which it begins.
const FEW_PARTS: usize = FEW_RULES + FIRST_PARTS;

const SOME_PARTS: usize = SOME_RULES + FIRST_PARTS;

const MOST_PARTS: usize = MOST_RULES + FIRST_PARTS;

// The term of a checked proof of at most RULES rules, whose draft has at most PARTS parts.
fn extract_within<const RULES: usize, const PARTS: usize>(
    start: usize,
    proof: &[u8],
    out: &mut [u8],
    scratch: &mut [u8],
) -> Result<Extraction, Refusal>
    requires { (RULES ≤ entry_room limits) × (PARTS ≡ RULES + 2) × ((p : Proof) × Checked proof.now out.old RULES p) × (start ≤ most_counter) }
    ensures { (p : Proof) → Checked proof.now out.old RULES p
        → Finished (extract_of terms p [] start) out.old scratch.old result out.new scratch.new }
{
    let mut rows = [NO_ROW; RULES];
    let draft = draft_whole::<RULES>(proof, &mut rows, start);
    let mut sizes = [NO_SIZE; PARTS];
    finish(proof, &rows, draft, &mut sizes, out, scratch)
}

// The term of a proof that was read. The counter only rises, so that one that is over the most stays so.
fn extract_read(
    counter: u32,
    rules: usize,
    proof: &[u8],
    out: &mut [u8],
    scratch: &mut [u8],
) -> Result<Extraction, Refusal>
    requires { (p : Proof) × Checked proof.now out.old rules p }
    ensures { (p : Proof) → Checked proof.now out.old rules p
        → Finished (extract_of terms p [] counter) out.old scratch.old result out.new scratch.new }
{
    let start = counter as usize;
    if MOST_COUNTER < start {
        return Err(Refusal::of_no_input(Reason::CounterOver));
    }
    if SOME_RULES < rules {
        return extract_within::<MOST_RULES, MOST_PARTS>(start, proof, out, scratch);
    }
    if FEW_RULES < rules {
        return extract_within::<SOME_RULES, SOME_PARTS>(start, proof, out, scratch);
    }
    extract_within::<FEW_RULES, FEW_PARTS>(start, proof, out, scratch)
}

// The term of a proof, from a counter on: its bytes in out, with zeros behind them.
pub fn extract(
    counter: u32,
    proof: &[u8],
    out: &mut [u8],
    scratch: &mut [u8],
) -> Result<Extraction, Refusal>
    ensures value { (es : List Entry) → entry_room limits ≤ length es
        → result ≡ extraction (extract_call limits counter proof.now out.old scratch.old es).answer
        (extract_call limits counter proof.now out.old scratch.old es).counter }
    ensures out_after { (es : List Entry) → entry_room limits ≤ length es
        → out.new ≡ (extract_call limits counter proof.now out.old scratch.old es).output }
    ensures scratch_after { (es : List Entry) → entry_room limits ≤ length es
        → scratch.new ≡ (extract_call limits counter proof.now out.old scratch.old es).scratch }
{
    if short(out.len(), scratch.len()) {
        return Err(Refusal::of_no_input(Reason::ShortBuffer));
    }
    let rules = proof::proof_input(proof, 1)?;
    extract_read(counter, rules, proof, out, scratch)
}
