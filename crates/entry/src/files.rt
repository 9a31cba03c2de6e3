// The stored form, for each of its two kinds.
// Kept: four functions, since each is one that C calls, and crates/promises/proofs/OneEntry.antt speaks of it by name.
ghost use Rattle.std.specs.Prelude.{◌≡◌};
ghost use Rattle.rules.specs.Limits.{limits};
ghost use Rattle.rules.specs.Calls.{store_call, load_call};
ghost use Rattle.rules.specs.declared.Kind.TheVariants.{Term, Proof};
ghost use Rattle.entry.specs.Told.{told_answer};

use crate::tell::tell;
use rules::Kind;

pub fn patch_store_term(term: &[u8], out: &mut [u8], answer: &mut [u64; 16])
    ensures answer_after { answer.new ≡ told_answer ((store_call limits Term term.now out.old).answer) }
    ensures out_after { out.new ≡ (store_call limits Term term.now out.old).output }
{
    tell(stored::store(Kind::Term, term, out), answer);
}

pub fn patch_store_proof(proof: &[u8], out: &mut [u8], answer: &mut [u64; 16])
    ensures answer_after { answer.new ≡ told_answer ((store_call limits Proof proof.now out.old).answer) }
    ensures out_after { out.new ≡ (store_call limits Proof proof.now out.old).output }
{
    tell(stored::store(Kind::Proof, proof, out), answer);
}

pub fn patch_load_term(file: &[u8], out: &mut [u8], answer: &mut [u64; 16])
    ensures answer_after { answer.new ≡ told_answer ((load_call limits Term file.now out.old).answer) }
    ensures out_after { out.new ≡ (load_call limits Term file.now out.old).output }
{
    tell(stored::load(Kind::Term, file, out), answer);
}

pub fn patch_load_proof(file: &[u8], out: &mut [u8], answer: &mut [u64; 16])
    ensures answer_after { answer.new ≡ told_answer ((load_call limits Proof file.now out.old).answer) }
    ensures out_after { out.new ≡ (load_call limits Proof file.now out.old).output }
{
    tell(stored::load(Kind::Proof, file, out), answer);
}
