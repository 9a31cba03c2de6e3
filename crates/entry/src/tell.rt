// Answers, told as 16 numbers: a refusal's number, place and input, or three zeros; the values of the answer; zeros. (Steps and reductions: tell_steps.rt.)
#![tactic(auto, unfolding(crate::specs::Told::told_refusal, crate::specs::Told::told_answer, crate::specs::Told::told_verdict, crate::specs::Child::told_places, crate::specs::Extraction::told_extraction))]

ghost use Rattle.std.specs.Prelude.{◌≡◌, ◌≤◌, length};
ghost use Rattle.rules.specs.Refusal.{number_of};
ghost use Rattle.entry.specs.Told.{told, told_refusal, told_answer, told_verdict};
ghost use Rattle.entry.specs.Child.{ordered, told_places};
ghost use Rattle.entry.specs.Extraction.{told_extraction};

use extract::Extraction;
use rules::{Places, Refusal};

// The values of an answer, between zeros.
pub(crate) fn put_values(values: &[u64], numbers: &mut [u64; 16])
    requires { length values.now ≤ 13 }
    ensures { numbers.new ≡ told 0 0 0 values.now }
{
    *numbers = [0; 16];
    numbers[3..3 + values.len()].copy_from_slice(values);
}

// A refusal, and values beside it.
pub(crate) fn put_refusal(r: Refusal, values: &[u64], numbers: &mut [u64; 16])
    requires { length values.now ≤ 13 }
    ensures { numbers.new ≡ told (number_of r.reason) r.place r.input values.now }
{
    put_values(values, numbers);
    numbers[0] = u64::from(r.reason.number());
    numbers[1] = r.place as u64;
    numbers[2] = u64::from(r.input);
}

// A refusal, told as numbers.
pub fn tell_refusal(r: Refusal, told: &mut [u64; 16])
    ensures { told.new ≡ told_refusal r }
{
    put_refusal(r, &[], told);
}

// A count or a refusal, told as numbers.
// Kept: writers by two arms: one over all would hand an array of values through a closure, whose contract is longer than the arms.
pub fn tell(answer: Result<usize, Refusal>, told: &mut [u64; 16])
    ensures { told.new ≡ told_answer answer }
{
    match answer {
        Ok(n) => put_values(&[n as u64], told),
        Err(r) => tell_refusal(r, told),
    }
}

// Yes, no or a refusal, told as numbers.
pub fn tell_verdict(verdict: Result<bool, Refusal>, told: &mut [u64; 16])
    ensures { told.new ≡ told_verdict verdict }
{
    match verdict {
        Ok(yes) => put_values(&[u64::from(yes)], told),
        Err(r) => tell_refusal(r, told),
    }
}

// Where a child stands, told as numbers.
pub fn tell_places(places: Result<Places, Refusal>, told: &mut [u64; 16])
    requires { ordered places }
    ensures { told.new ≡ told_places places }
{
    match places {
        Ok(p) => put_values(&[p.from as u64, (p.end - p.from) as u64], told),
        Err(r) => tell_refusal(r, told),
    }
}

// A length and a counter, or a refusal, told as numbers.
pub fn tell_extraction(made: Result<Extraction, Refusal>, told: &mut [u64; 16])
    ensures { told.new ≡ told_extraction made }
{
    match made {
        Ok(made) => put_values(&[made.bytes as u64, u64::from(made.counter)], told),
        Err(r) => tell_refusal(r, told),
    }
}
