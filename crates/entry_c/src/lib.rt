// The exports of include/patch.h: each is the entry of the same name in the crate entry, and says its clauses again.
#![tactic(auto)]

ghost use Rattle.std.specs.Prelude.{◌≡◌};
ghost use Rattle.rules.specs.Limits.{limits};
ghost use Rattle.step.specs.Answers.{step_answered};
ghost use Rattle.reduction.specs.Answers.{reduced_by};
ghost use Rattle.rules.specs.Calls.{check_term_call, check_formula_call, check_proof_call, formula_text_call, text_call, locate_call, free_vars_call, substitute_call, step_call, reduce_call, is_normal_call};
ghost use Rattle.entry.specs.Told.{told_answer, told_verdict};
ghost use Rattle.entry.specs.Child.{told_places};
ghost use Rattle.entry.specs.Steps.{told_step, told_reduced};

pub mod files;
pub mod proofs_to_terms;
pub mod straight_terms;

#[unsafe(no_mangle)]
pub extern "C" fn patch_check_formula(formula: &[u8], answer: &mut [u64; 16])
    ensures { answer.new ≡ told_answer (check_formula_call limits formula.now) }
{
    entry::patch_check_formula(formula, answer);
}

#[unsafe(no_mangle)]
pub extern "C" fn patch_check_term(term: &[u8], answer: &mut [u64; 16])
    ensures { answer.new ≡ told_answer (check_term_call limits term.now) }
{
    entry::patch_check_term(term, answer);
}

#[unsafe(no_mangle)]
pub extern "C" fn patch_check_proof(proof: &[u8], answer: &mut [u64; 16])
    ensures { answer.new ≡ told_answer (check_proof_call limits proof.now) }
{
    entry::patch_check_proof(proof, answer);
}

#[unsafe(no_mangle)]
pub extern "C" fn patch_formula_text(formula: &[u8], out: &mut [u8], answer: &mut [u64; 16])
    ensures answer_after { answer.new ≡ told_answer ((formula_text_call limits formula.now out.old).answer) }
    ensures out_after { out.new ≡ (formula_text_call limits formula.now out.old).output }
{
    entry::patch_formula_text(formula, out, answer);
}

#[unsafe(no_mangle)]
pub extern "C" fn patch_term_text(term: &[u8], out: &mut [u8], answer: &mut [u64; 16])
    ensures answer_after { answer.new ≡ told_answer ((text_call limits term.now out.old).answer) }
    ensures out_after { out.new ≡ (text_call limits term.now out.old).output }
{
    entry::patch_term_text(term, out, answer);
}

#[unsafe(no_mangle)]
pub extern "C" fn patch_child(term: &[u8], k: usize, answer: &mut [u64; 16])
    ensures { answer.new ≡ told_places (locate_call limits term.now k) }
{
    entry::patch_child(term, k, answer);
}

#[unsafe(no_mangle)]
pub extern "C" fn patch_free_vars(term: &[u8], out: &mut [u8], answer: &mut [u64; 16])
    ensures answer_after { answer.new ≡ told_answer ((free_vars_call limits term.now out.old).answer) }
    ensures out_after { out.new ≡ (free_vars_call limits term.now out.old).output }
{
    entry::patch_free_vars(term, out, answer);
}

#[unsafe(no_mangle)]
pub extern "C" fn patch_substitute(
    term: &[u8],
    name: &[u8],
    value: &[u8],
    out: &mut [u8],
    scratch: &mut [u8],
    answer: &mut [u64; 16],
)
    ensures answer_after { answer.new ≡ told_answer ((substitute_call limits term.now name.now value.now out.old scratch.old).answer) }
    ensures out_after { out.new ≡ (substitute_call limits term.now name.now value.now out.old scratch.old).output }
    ensures scratch_after { scratch.new ≡ (substitute_call limits term.now name.now value.now out.old scratch.old).scratch }
{
    entry::patch_substitute(term, name, value, out, scratch, answer);
}

#[unsafe(no_mangle)]
pub extern "C" fn patch_step(
    term: &[u8],
    out: &mut [u8],
    scratch: &mut [u8],
    answer: &mut [u64; 16],
)
    ensures answer_after { answer.new ≡ told_step (step_answered (step_call limits term.now out.old scratch.old).answer) }
    ensures out_after { out.new ≡ (step_call limits term.now out.old scratch.old).output }
    ensures scratch_after { scratch.new ≡ (step_call limits term.now out.old scratch.old).scratch }
{
    entry::patch_step(term, out, scratch, answer);
}

#[unsafe(no_mangle)]
pub extern "C" fn patch_normalize_bounded(
    term: &[u8],
    limit: u32,
    out: &mut [u8],
    scratch: &mut [u8],
    answer: &mut [u64; 16],
)
    ensures answer_after { answer.new ≡ told_reduced (reduced_by (reduce_call limits term.now limit out.old scratch.old).answer (reduce_call limits term.now limit out.old scratch.old).output_length) }
    ensures out_after { out.new ≡ (reduce_call limits term.now limit out.old scratch.old).output }
    ensures scratch_after { scratch.new ≡ (reduce_call limits term.now limit out.old scratch.old).scratch }
{
    entry::patch_normalize_bounded(term, limit, out, scratch, answer);
}

#[unsafe(no_mangle)]
pub extern "C" fn patch_is_normal(term: &[u8], answer: &mut [u64; 16])
    ensures { answer.new ≡ told_verdict (is_normal_call limits term.now) }
{
    entry::patch_is_normal(term, answer);
}
