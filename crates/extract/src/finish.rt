// From a draft to its term: measured, and written if no limit is broken.
ghost use Rattle.std.specs.Prelude.{ℕ};
ghost use Rattle.rules.specs.Term.{Term};
ghost use Rattle.extract.specs.Whole.{Finishes, Finished};

use crate::Extraction;
use buffer::run;
use draft::row::Row;
use draft::size::{Size, fits};
use draft::write::put_part;
use proof_draft::put::Drafted;
use rules::{MOST_COUNTER, Reason, Refusal};

// The term of a draft, unless its counter or its size is over the most.
pub fn finish(
    proof: &[u8],
    rows: &[Row],
    draft: Drafted,
    sizes: &mut [Size],
    out: &mut [u8],
    scratch: &mut [u8],
) -> Result<Extraction, Refusal>
    requires { (t : Term) × (n : ℕ) × Finishes proof.now rows.now draft sizes.old out.old (t, n) }
    ensures { (t : Term) → (n : ℕ) → Finishes proof.now rows.now draft sizes.old out.old (t, n)
        → Finished (t, n) out.old scratch.old result out.new scratch.new }
{
    if MOST_COUNTER < draft.counter {
        return Err(Refusal::of_no_input(Reason::CounterOver));
    }
    let used = &rows[..draft.used];
    if fits(proof, used, draft.part, sizes) {
        let end = put_part(proof, used, draft.part, out, 0);
        run::clear(out, end);
        run::clear(scratch, 0);
        return Ok(Extraction {
            bytes: end,
            counter: draft.counter as u32,
        });
    }
    run::clear(scratch, 0);
    Err(Refusal::of_no_input(Reason::Outgrows))
}
