// Stored files.
ghost use Rattle.std.specs.Prelude.{◌≡◌};
ghost use Rattle.rules.specs.Limits.{limits};
ghost use Rattle.rules.specs.Calls.{store_call, load_call};
ghost use Rattle.rules.specs.declared.Kind.TheVariants.{Term, Proof};
ghost use Rattle.entry.specs.Told.{told_answer};

#[unsafe(no_mangle)]
pub extern "C" fn patch_store_term(term: &[u8], out: &mut [u8], answer: &mut [u64; 16])
    ensures answer_after { answer.new ≡ told_answer ((store_call limits Term term.now out.old).answer) }
    ensures out_after { out.new ≡ (store_call limits Term term.now out.old).output }
{
    entry::files::patch_store_term(term, out, answer);
}

#[unsafe(no_mangle)]
pub extern "C" fn patch_store_proof(proof: &[u8], out: &mut [u8], answer: &mut [u64; 16])
    ensures answer_after { answer.new ≡ told_answer ((store_call limits Proof proof.now out.old).answer) }
    ensures out_after { out.new ≡ (store_call limits Proof proof.now out.old).output }
{
    entry::files::patch_store_proof(proof, out, answer);
}

#[unsafe(no_mangle)]
pub extern "C" fn patch_load_term(file: &[u8], out: &mut [u8], answer: &mut [u64; 16])
    ensures answer_after { answer.new ≡ told_answer ((load_call limits Term file.now out.old).answer) }
    ensures out_after { out.new ≡ (load_call limits Term file.now out.old).output }
{
    entry::files::patch_load_term(file, out, answer);
}

#[unsafe(no_mangle)]
pub extern "C" fn patch_load_proof(file: &[u8], out: &mut [u8], answer: &mut [u64; 16])
    ensures answer_after { answer.new ≡ told_answer ((load_call limits Proof file.now out.old).answer) }
    ensures out_after { out.new ≡ (load_call limits Proof file.now out.old).output }
{
    entry::files::patch_load_proof(file, out, answer);
}
