// Bytes written to the output: words and brackets. What is written too much is written over by what follows.
ghost use Rattle.std.specs.Prelude.{◌≡◌, [], ◌∷◌, ◌+◌, ◌/◌, ◌%◌, ◌≤◌, ◌<◌, length, take};
ghost use Rattle.words.specs.Prints.{Prints, brackets};
ghost use Rattle.words.specs.Task.{Done, places as places_of};

// The first n bytes of a word. All of it is written, so that it is a store or two however many count: from a copy of it, and not by std's
// `copy_from_slice`, which first asks whether both sides overlap.
pub fn first<const N: usize>(out: &mut [u8], to: usize, w: &[u8; N], n: usize) -> usize
    requires { (n ≤ N) × (to + N ≤ length out.old) }
    ensures { Prints out.old to (take n w.now) out.new result }
{
    let bytes = *w;
    for i in 0..N {
        out[to + i] = bytes[i];
    }
    to + n
}

pub fn word<const N: usize>(out: &mut [u8], to: usize, w: &[u8; N]) -> usize
    requires { to + N ≤ length out.old }
    ensures { Prints out.old to w.now out.new result }
{
    first(out, to, w, N)
}

pub fn byte(out: &mut [u8], to: usize, b: u8) -> usize
    requires { to < length out.old }
    ensures { Prints out.old to (b ∷ []) out.new result }
{
    out[to] = b;
    to + 1
}

// So many closing brackets.
pub fn closes(out: &mut [u8], to: usize, n: usize) -> usize
    requires { to + n ≤ length out.old }
    ensures { Prints out.old to (brackets n) out.new result }
{
    out[to..to + n].fill(b')');
    to + n
}

// A place in the bytes and a place in the text. Kept: in one number, which comes back in a register.
pub fn places(at: usize, to: usize) -> usize
    requires { (at < 65536) × (to < 65536) }
    ensures { result ≡ places_of at to }
{
    to * 65536 + at
}

// So many closing brackets after what has come to the places r.
pub fn closed(out: &mut [u8], r: usize, n: usize) -> usize
    requires { (r / 65536 + n ≤ length out.old) × (r / 65536 + n < 65536) }
    ensures { Done (r % 65536) out.old (r / 65536) [] (brackets n) out.new result }
{
    places(r % 65536, closes(out, r / 65536, n))
}
