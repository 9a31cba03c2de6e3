// Words and names of a term's text: the word that a tag chooses, names with the words around them, a leaf.
ghost use Rattle.std.specs.Prelude.{◌≡◌, [], ◌+◌, ◌/◌, ◌%◌, ◌≤◌, ◌<◌, length, get_or};
ghost use Rattle.rules.specs.Basic.{say, ◌‥◌};
ghost use Rattle.rules.specs.Name.{Name, name_most, encode_name};
ghost use Rattle.rules.specs.Term.{Leaf, leaf as leaf_of};
ghost use Rattle.words.specs.Prints.{Prints, brackets};
ghost use Rattle.words.specs.Task.{Task, Done};
ghost use Rattle.term_text.specs.Task.{TermTask, TermDone, name_at, after_name, NameIn};
ghost use Rattle.term_text.specs.Words.{sign_of};

use words::name::{name, named, past};
use words::word::{closes, first, places, word};

// The word of each tag from 0 on, as it is written, and how many of its bytes count. It is read from a table, so that there is no branch.
static SIGNS: [([u8; 9], usize); 16] = [
    (*b"         ", 0),
    (*b"         ", 0),
    (*b"()       ", 2),
    (*b",        ", 2),
    (*b"         ", 0),
    (*b"         ", 0),
    (*b"         ", 1),
    (*b"inl      ", 4),
    (*b"inr      ", 4),
    (*b"         ", 0),
    (*b"\xe2\x9f\xa8\xe2\x9f\xa9   ", 6), // ⟨⟩
    (*b"fst      ", 4),
    (*b"snd      ", 4),
    (*b"absurd   ", 7),
    (*b"!        ", 1),
    (*b"derelict ", 9),
];

pub fn sign(tag: u8, out: &mut [u8], to: usize) -> usize
    requires { (tag < 16) × (to + 9 ≤ length out.old) }
    ensures { Prints out.old to (sign_of tag) out.new result }
{
    let (bytes, long) = &SIGNS[tag as usize];
    first(out, to, bytes, *long)
}

// The place after two names.
pub fn past_names(s: &[u8], x: usize) -> usize
    requires { NameIn s.now x × NameIn s.now (after_name s.now x) }
    ensures { result ≡ after_name s.now (after_name s.now x) }
{
    past(s, past(s, x))
}

// A name with a word before and behind it.
pub fn one_name<const L: usize, const T: usize>(
    s: &[u8],
    x: usize,
    out: &mut [u8],
    to: usize,
    lead: &[u8; L],
    tail: &[u8; T],
) -> usize
    requires name_in { NameIn s.now x × (to + L + get_or s.now x 0 + name_most ≤ length out.old) }
    requires tail_len { T ≤ name_most }
    ensures { Prints out.old to (lead.now ‥ name_at s.now x ‥ tail.now) out.new result }
{
    let a = word(out, to, lead);
    named(s, x, out, a, tail)
}

// Two names, with a word before, a comma and a space between and a word behind them.
pub fn two_names<const L: usize, const T: usize>(
    s: &[u8],
    x: usize,
    out: &mut [u8],
    to: usize,
    lead: &[u8; L],
    tail: &[u8; T],
) -> usize
    requires name_in { NameIn s.now x × NameIn s.now (after_name s.now x) × (to + L + get_or s.now x 0 + get_or s.now (after_name s.now x) 0 + name_most + 2 ≤ length out.old) }
    requires tail_len { T ≤ name_most }
    ensures { Prints out.old to (lead.now ‥ name_at s.now x ‥ say ", " ‥ name_at s.now (after_name s.now x) ‥ tail.now) out.new result }
{
    let b = one_name(s, x, out, to, lead, b", ");
    named(s, past(s, x), out, b, tail)
}

// What ends a case that has come to the places r.
pub fn case_end(out: &mut [u8], r: usize) -> usize
    requires { (r / 65536 + 8 ≤ length out.old) × (r / 65536 + 2 < 65536) }
    ensures { Done (r % 65536) out.old (r / 65536) [] (say " }") out.new result }
{
    let o = word(out, r / 65536, b" }");
    places(r % 65536, o)
}

// A name, and n closing brackets after it. The length is read before anything is written, and so once.
pub fn last_name(s: &[u8], x: usize, out: &mut [u8], to: usize, n: usize) -> usize
    requires { (y : Name) × (length y ≤ name_most) × Task s.now x out.old to (encode_name y) (y ‥ brackets n) }
    ensures { (y : Name) → Task s.now x out.old to (encode_name y) (y ‥ brackets n) → Done x out.old to (encode_name y) (y ‥ brackets n) out.new result }
{
    let end = past(s, x);
    let a = name(s, x, out, to);
    places(end, closes(out, a, n))
}

pub fn leaf(s: &[u8], at: usize, out: &mut [u8], to: usize) -> usize
    requires { (k : Leaf) × TermTask s.now at out.old to (leaf_of k) }
    ensures { (k : Leaf) → TermTask s.now at out.old to (leaf_of k) → TermDone at out.old to (leaf_of k) out.new result }
{
    let o = sign(s[at], out, to);
    places(at + 1, o)
}
