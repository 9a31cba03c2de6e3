// Steps and reductions, told as numbers.
#![tactic(auto, unfolding(crate::specs::Steps::told_step, crate::specs::Steps::told_reduction, crate::specs::Steps::told_reduced))]

ghost use Rattle.std.specs.Prelude.{◌≡◌};
ghost use Rattle.entry.specs.Steps.{number_of_rule, told_step, told_reduction, told_reduced};

use crate::tell::{put_refusal, put_values, tell_refusal};
use reduction::{Reduction, Unreduced};
use rules::{Refusal, Rule};
use step::Stepped;

// The number of a rule, from 1.
// Kept: C is told these numbers (include/patch.h), whatever the order in the enum.
fn rule_number(rule: Rule) -> u64
    ensures { result ≡ number_of_rule rule }
{
    match rule {
        Rule::App => 1,
        Rule::Let => 2,
        Rule::Case => 3,
        Rule::Fst => 4,
        Rule::Snd => 5,
        Rule::Derelict => 6,
        Rule::Copy => 7,
        Rule::Discard => 8,
    }
}

// A step, told as numbers.
pub fn tell_step(stepped: Result<Stepped, Refusal>, told: &mut [u64; 16])
    ensures { told.new ≡ told_step stepped }
{
    match stepped {
        Ok(Stepped::Normal) => put_values(&[0, 0, 0], told),
        Ok(Stepped::Found(found)) => {
            let rule = rule_number(found.rule);
            put_values(&[rule, found.place as u64, found.length as u64], told);
        }
        Err(r) => tell_refusal(r, told),
    }
}

// What a reduction did, told as numbers.
fn tell_reduction(reduction: Reduction, told: &mut [u64; 16])
    ensures { told.new ≡ told_reduction reduction }
{
    let counts = reduction.counts;
    let values = [
        u64::from(reduction.steps),
        u64::from(reduction.normal),
        reduction.length as u64,
        u64::from(counts.app),
        u64::from(counts.lets),
        u64::from(counts.case),
        u64::from(counts.fst),
        u64::from(counts.snd),
        u64::from(counts.derelict),
        u64::from(counts.copy),
        u64::from(counts.discard),
    ];
    put_values(&values, told);
}

// A reduction or a refusal, told as numbers.
pub fn tell_reduced(reduced: Result<Reduction, Unreduced>, told: &mut [u64; 16])
    ensures { told.new ≡ told_reduced reduced }
{
    match reduced {
        Ok(reduction) => tell_reduction(reduction, told),
        Err(Unreduced { refusal, length }) => put_refusal(refusal, &[length as u64], told),
    }
}
