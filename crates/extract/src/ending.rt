// How an extraction over a lent row of cut entries begins, and how it ends. Nothing here carries the row: it is told how many entries there are.
ghost use Rattle.std.specs.Prelude.{◌≡◌, List, []};
ghost use Rattle.rules.specs.Limits.{limits};
ghost use Rattle.rules.specs.Proof.{Proof};
ghost use Rattle.rules.specs.Extraction.{terms, extract as extract_of};
ghost use Rattle.draft.specs.declared.row.Row.{Row};
ghost use Rattle.proof_draft.specs.Walk.{Done};
ghost use Rattle.extract.specs.Whole.{Checked};
ghost use Rattle.extract.specs.Ending.{clears_of, end_refused, ended_of, Begins, Closes};

use crate::finish::finish;
use crate::{Extraction, MOST_PARTS};
use buffer::room::short;
use draft::row::Row;
use draft::size::NO_SIZE;
use proof_draft::put::Drafted;
use rules::{ENTRY_ROOM, MOST_COUNTER, Reason, Refusal};

// How an extraction ends: its answer, the counter after it, and how many entries of the row are set to zeros.
#[derive(Clone, Copy)]
pub struct Ended {
    pub answer: Result<usize, Refusal>,
    pub counter: u32,
    pub clears: usize,
}

// How many entries a refusal sets to zeros: none by 1 to 7, 9 and 15, else all.
fn clears(reason: Reason, room: usize) -> usize
    ensures { result ≡ clears_of reason room }
{
    match reason {
        Reason::Outgrows
        | Reason::StoredLength
        | Reason::BlockCheck
        | Reason::BlockHead
        | Reason::UnusedNotZero
        | Reason::NoSuchChild => room,
        _ => 0,
    }
}

// How a refused extraction ends: the counter is the one before.
fn refused_end(refusal: Refusal, before: u32, room: usize) -> Ended
    ensures { result ≡ end_refused refusal before room }
{
    Ended {
        answer: Err(refusal),
        counter: before,
        clears: clears(refusal.reason, room),
    }
}

// How an extraction ends, beside a row of so many entries. Where a term was made, none of them is left.
// Kept: a function and no From, since it is told the counter before and the room too.
fn end_of(made: Result<Extraction, Refusal>, before: u32, room: usize) -> Ended
    ensures { result ≡ ended_of made before room }
{
    match made {
        Ok(made) => Ended {
            answer: Ok(made.bytes),
            counter: made.counter,
            clears: room,
        },
        Err(r) => refused_end(r, before, room),
    }
}

// How an extraction ends that is refused before anything is walked. A counter that is over the most stays so.
pub fn begin(counter: u32, room: usize, proof: &[u8], out: &[u8], scratch: &[u8]) -> Option<Ended>
    ensures { Begins counter room proof.now out.now scratch.now result }
{
    if room < ENTRY_ROOM {
        return Some(refused_end(Refusal::of_no_input(Reason::ShortBuffer), counter, room));
    }
    if short(out.len(), scratch.len()) {
        return Some(refused_end(Refusal::of_no_input(Reason::ShortBuffer), counter, room));
    }
    match proof::proof_input(proof, 1) {
        Err(r) => Some(refused_end(r, counter, room)),
        Ok(_) => {
            if MOST_COUNTER < counter as usize {
                return Some(refused_end(Refusal::of_no_input(Reason::CounterOver), counter, room));
            }
            None
        }
    }
}

// The term of a draft is measured and written.
pub fn close(
    counter: u32,
    room: usize,
    proof: &[u8],
    rows: &[Row],
    draft: Drafted,
    out: &mut [u8],
    scratch: &mut [u8],
) -> Ended
    requires { (p : Proof) × (ws : List Row) × Checked proof.now out.old limits.rules p × Done proof.now 0 ws rows.now 0 counter p [] draft }
    ensures { (p : Proof) → (ws : List Row) → Checked proof.now out.old limits.rules p → Done proof.now 0 ws rows.now 0 counter p [] draft
        → Closes counter room (extract_of terms p [] counter) out.old scratch.old result out.new scratch.new }
{
    let mut sizes = [NO_SIZE; MOST_PARTS];
    let made = finish(proof, rows, draft, &mut sizes, out, scratch);
    end_of(made, counter, room)
}
