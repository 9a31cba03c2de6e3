// Names as they are printed, and the place after a name. What is written too much is written over by what follows.
ghost use Rattle.std.specs.Prelude.{◌≡◌, ◌++◌, ◌+◌, ◌≤◌, length, get_or, take, drop};
ghost use Rattle.rules.specs.Name.{name_most};
ghost use Rattle.words.specs.Prints.{Prints};

use crate::word::{first, word};
use buffer::run;
use rules::LONGEST_NAME;

// So many bytes of s, from `from` on, and at most N. Where N are there, all of them are written, so that nothing is counted.
pub fn few<const N: usize>(s: &[u8], from: usize, n: usize, out: &mut [u8], to: usize) -> usize
    requires { (n ≤ N) × (from + n ≤ length s.now) × (to + N ≤ length out.old) }
    ensures { Prints out.old to (take n (drop from s.now)) out.new result }
{
    match s[from..].first_chunk::<N>() {
        Some(bytes) => first(out, to, bytes, n),
        None => run::copy(s, from, from + n, out, to),
    }
}

// A name, whose length stands at `at`. Most names have at most eight bytes, and these are put in where it is called.
#[inline(always)]
pub fn name(s: &[u8], at: usize, out: &mut [u8], to: usize) -> usize
    requires { (get_or s.now at 0 ≤ name_most) × (at + 1 + get_or s.now at 0 ≤ length s.now) × (to + name_most ≤ length out.old) }
    ensures { Prints out.old to (take (get_or s.now at 0) (drop (at + 1) s.now)) out.new result }
{
    let n = s[at] as usize;
    if n <= 8 {
        return few::<8>(s, at + 1, n, out, to);
    }
    long_name(s, at, n, out, to)
}

// A name of n bytes, whose length stands at `at`.
#[inline(never)]
fn long_name(s: &[u8], at: usize, n: usize, out: &mut [u8], to: usize) -> usize
    requires { (n ≤ name_most) × (at + 1 + n ≤ length s.now) × (to + name_most ≤ length out.old) }
    ensures { Prints out.old to (take n (drop (at + 1) s.now)) out.new result }
{
    few::<LONGEST_NAME>(s, at + 1, n, out, to)
}

// A name, then a word.
pub fn named<const N: usize>(s: &[u8], at: usize, out: &mut [u8], to: usize, w: &[u8; N]) -> usize
    requires at_bound { (get_or s.now at 0 ≤ name_most) × (at + 1 + get_or s.now at 0 ≤ length s.now) × (to + name_most ≤ length out.old) }
    requires word_bound { to + get_or s.now at 0 + N ≤ length out.old }
    ensures { Prints out.old to (take (get_or s.now at 0) (drop (at + 1) s.now) ++ w.now) out.new result }
{
    let o = name(s, at, out, to);
    word(out, o, w)
}

// The place after a name.
pub fn past(s: &[u8], at: usize) -> usize
    requires { at + 1 + get_or s.now at 0 ≤ length s.now }
    ensures { result ≡ at + 1 + get_or s.now at 0 }
{
    at + 1 + s[at] as usize
}
