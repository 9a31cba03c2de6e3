// Words that are no names: those of a printed term.
ghost use Rattle.std.specs.Prelude.{◌≡◌, List, ◌+◌, ◌≤◌, ◌<◌, length, take, drop};
ghost use Rattle.rules.specs.Name.{Name, same, among, is_a_word};
ghost use Rattle.reader.specs.Words.{byte_compared, compared, InRow};

use crate::class::Form;
use rules::lower_byte;

// A letter of a name as it is, of an atom in lower case.
fn compared_byte(form: Form, b: u8) -> u8
    ensures { result ≡ byte_compared form b }
{
    match form {
        Form::Term => b,
        Form::Formula => lower_byte(b),
    }
}

// Whether the letters of s at `at` begin with a word.
fn spells(s: &[u8], form: Form, at: usize, word: &[u8]) -> bool
    requires { at + length word.now ≤ length s.now }
    ensures { result ≡ same (compared form (take (length word.now) (drop at s.now))) word.now }
{
    for i in 0..word.len() {
        if compared_byte(form, s[at + i]) != word[i] {
            return false;
        }
    }
    true
}

// Whether the n letters of s at `at` are one of the words of n letters that stand in a row.
fn is_among(s: &[u8], form: Form, at: usize, n: usize, words: &[u8]) -> bool
    requires { (0 < n) × (at + n ≤ length s.now) }
    ensures { (ws : List Name) → InRow n ws words.now → result ≡ among (compared form (take n (drop at s.now))) ws }
{
    for word in words.chunks_exact(n) {
        if spells(s, form, at, word) {
            return true;
        }
    }
    false
}

// Whether they are a word.
fn is_listed(s: &[u8], form: Form, at: usize, n: usize) -> bool
    requires { at + n ≤ length s.now }
    ensures { result ≡ is_a_word (compared form (take n (drop at s.now))) }
{
    match n {
        2 => is_among(s, form, at, n, b"inofas"),
        3 => is_among(s, form, at, n, b"letinlinrfstsnd"),
        4 => is_among(s, form, at, n, b"casecopy"),
        6 => is_among(s, form, at, n, b"absurd"),
        7 => is_among(s, form, at, n, b"discard"),
        8 => is_among(s, form, at, n, b"derelict"),
        _ => false,
    }
}

// The same, where the bytes do not end before.
pub fn is_word(s: &[u8], form: Form, at: usize, n: usize) -> bool
    requires { at ≤ length s.now }
    ensures { at + n ≤ length s.now → result ≡ is_a_word (compared form (take n (drop at s.now))) }
{
    if s.len() - at < n {
        return true;
    }
    is_listed(s, form, at, n)
}
