// Runs of bytes: copied, compared, set to zero. Nothing here knows a tag.
ghost use Rattle.std.specs.Prelude.{◌≡◌, ◌+◌, ◌-◌, ◌≤◌, length, replicate};
ghost use Rattle.std.proofs.Math.Seq.{slice};
ghost use Rattle.std.proofs.lemmas.List.Edits.{sets};
ghost use Rattle.rules.specs.Name.{same as same_name};
ghost use Rattle.buffer.specs.Wrote.{Wrote};

// Whether a and b are the same bytes.
pub fn same(a: &[u8], b: &[u8]) -> bool
    ensures { result ≡ same_name a.now b.now }
{
    a == b
}

// Copies src[from..end] to out from `to` on, and returns the place after it.
// By a loop and not by std's `copy_from_slice`, which calls memmove: the archive for C asks for memcpy and memset alone, and runs are mostly short.
// Kept: an output and a place in it, here and where texts and terms are written: what stands in front of the place stays, which a contract over a part of the output would have to say besides.
pub fn copy(src: &[u8], from: usize, end: usize, out: &mut [u8], to: usize) -> usize
    requires { (from ≤ end) × (end ≤ length src.now) × (to + (end - from) ≤ length out.old) }
    ensures { Wrote out.old to (slice from end src.now) out.new result }
{
    for i in from..end {
        out[to + (i - from)] = src[i];
    }
    to + (end - from)
}

// Zeros in out from `from` on.
pub fn clear(out: &mut [u8], from: usize)
    requires { from ≤ length out.old }
    ensures { out.new ≡ sets out.old from (replicate (length out.old - from) 0) }
{
    out[from..].fill(0);
}
