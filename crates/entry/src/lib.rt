// What the C entry points (include/patch.h) do, which the crate entry_c exports: one line each over a public call, on numbers and byte slices.
// An entry tells its answer in an array of 16 numbers, whose length is part of its type, so no caller can lend too few and the entry needs no
// refusal of its own. What the numbers are is defined in specs/Told.antt and the files beside it.
// Kept: slices one by one and no struct of them, since that is what include/patch.h passes.
#![tactic(auto)]

ghost use Rattle.std.specs.Prelude.{◌≡◌};
ghost use Rattle.rules.specs.Limits.{limits};
ghost use Rattle.step.specs.Answers.{step_answered};
ghost use Rattle.reduction.specs.Answers.{reduced_by};
ghost use Rattle.rules.specs.Calls.{check_term_call, check_formula_call, check_proof_call, formula_text_call, text_call, locate_call, free_vars_call, substitute_call, step_call, reduce_call, is_normal_call};
ghost use Rattle.entry.specs.Told.{told_answer, told_verdict};
ghost use Rattle.entry.specs.Child.{told_places};
ghost use Rattle.entry.specs.Steps.{told_step, told_reduced};

use tell::{tell, tell_places, tell_verdict};
use tell_steps::{tell_reduced, tell_step};
use term::child;

pub mod files;
pub mod proofs_to_terms;
pub mod straight_terms;
pub mod tell;
pub mod tell_steps;

pub fn patch_check_formula(formula: &[u8], answer: &mut [u64; 16])
    ensures { answer.new ≡ told_answer (check_formula_call limits formula.now) }
{
    tell(reader::check_formula(formula), answer);
}

pub fn patch_check_term(term: &[u8], answer: &mut [u64; 16])
    ensures { answer.new ≡ told_answer (check_term_call limits term.now) }
{
    tell(reader::check_term(term), answer);
}

pub fn patch_check_proof(proof: &[u8], answer: &mut [u64; 16])
    ensures { answer.new ≡ told_answer (check_proof_call limits proof.now) }
{
    tell(proof::check_proof(proof), answer);
}

pub fn patch_formula_text(formula: &[u8], out: &mut [u8], answer: &mut [u64; 16])
    ensures answer_after { answer.new ≡ told_answer ((formula_text_call limits formula.now out.old).answer) }
    ensures out_after { out.new ≡ (formula_text_call limits formula.now out.old).output }
{
    tell(formula_text::pretty(formula, out), answer);
}

pub fn patch_term_text(term: &[u8], out: &mut [u8], answer: &mut [u64; 16])
    ensures answer_after { answer.new ≡ told_answer ((text_call limits term.now out.old).answer) }
    ensures out_after { out.new ≡ (text_call limits term.now out.old).output }
{
    tell(term_text::pretty(term, out), answer);
}

// An exported function cannot hand back a part of the caller's bytes, so it tells where the part stands.
pub fn patch_child(term: &[u8], k: usize, answer: &mut [u64; 16])
    ensures { answer.new ≡ told_places (locate_call limits term.now k) }
{
    tell_places(child::locate(term, k), answer);
}

pub fn patch_free_vars(term: &[u8], out: &mut [u8], answer: &mut [u64; 16])
    ensures answer_after { answer.new ≡ told_answer ((free_vars_call limits term.now out.old).answer) }
    ensures out_after { out.new ≡ (free_vars_call limits term.now out.old).output }
{
    tell(free::free_vars(term, out), answer);
}

pub fn patch_substitute(
    term: &[u8],
    name: &[u8],
    value: &[u8],
    out: &mut [u8],
    scratch: &mut [u8],
    answer: &mut [u64; 16],
)
    ensures answer_after { answer.new ≡ told_answer ((substitute_call limits term.now name.now value.now out.old scratch.old).answer) }
    ensures out_after { out.new ≡ (substitute_call limits term.now name.now value.now out.old scratch.old).output }
    ensures scratch_after { scratch.new ≡ (substitute_call limits term.now name.now value.now out.old scratch.old).scratch }
{
    tell(
        substitution::substitute(term, name, value, out, scratch),
        answer,
    );
}

pub fn patch_step(term: &[u8], out: &mut [u8], scratch: &mut [u8], answer: &mut [u64; 16])
    ensures answer_after { answer.new ≡ told_step (step_answered (step_call limits term.now out.old scratch.old).answer) }
    ensures out_after { out.new ≡ (step_call limits term.now out.old scratch.old).output }
    ensures scratch_after { scratch.new ≡ (step_call limits term.now out.old scratch.old).scratch }
{
    tell_step(step::step(term, out, scratch), answer);
}

pub fn patch_normalize_bounded(
    term: &[u8],
    limit: u32,
    out: &mut [u8],
    scratch: &mut [u8],
    answer: &mut [u64; 16],
)
    ensures answer_after { answer.new ≡ told_reduced (reduced_by (reduce_call limits term.now limit out.old scratch.old).answer (reduce_call limits term.now limit out.old scratch.old).output_length) }
    ensures out_after { out.new ≡ (reduce_call limits term.now limit out.old scratch.old).output }
    ensures scratch_after { scratch.new ≡ (reduce_call limits term.now limit out.old scratch.old).scratch }
{
    tell_reduced(
        reduction::normalize_bounded(term, limit, out, scratch),
        answer,
    );
}

pub fn patch_is_normal(term: &[u8], answer: &mut [u64; 16])
    ensures { answer.new ≡ told_verdict (is_normal_call limits term.now) }
{
    tell_verdict(step::is_normal(term), answer);
}
