// Skips names: a length byte, then letters that are no word.
ghost use Rattle.std.specs.Prelude.{◌≡◌, true, ℕ, ◌+◌, ◌-◌, ◌≤◌, ◌<◌, length, take, drop, IfSome};
ghost use Rattle.rules.specs.Name.{follows as follows_name, name_most};
ghost use Rattle.rules.specs.declared.Reason.TheVariants.{BadName};
ghost use Rattle.rules.specs.Reading.{byte_for, many, letters, spelled, times, name};
ghost use Rattle.reader.specs.Classes.{Letters, Alphabet};
ghost use Rattle.reader.specs.View.{past, fault, view, skipped};
ghost use Rattle.reader.specs.Words.{spelling_of};

use crate::class::{Form, follows, leads, longest_name, starts};
use crate::word::is_word;
use rules::{Fault, Reason};

// Kept: places in the input and no part of it, since a fault is told by its place.

pub fn fault<T>(reason: Reason, place: usize) -> Result<T, Fault>
    ensures { result ≡ fault reason place }
{
    Err(Fault { reason, place })
}

// The letters of a name after its first, up to `end`.
fn skip_following(s: &[u8], t: &[u32; 256], at: usize, end: usize) -> Result<usize, Fault>
    requires letters { Letters t.now }
    requires end_in_bounds { (at ≤ end) × (end ≤ length s.now) }
    ensures { (u : ℕ) → skipped u result ≡ view (many (byte_for follows_name BadName) (end - at) u at (drop at s.now)) }
{
    for p in at..end {
        if !follows(t, s[p]) {
            return fault(Reason::BadName, p);
        }
    }
    Ok(end)
}

// The letters of a name, up to `end`.
fn skip_letters(s: &[u8], t: &[u32; 256], at: usize, end: usize) -> Result<usize, Fault>
    requires letters { Letters t.now }
    requires at_lt_end { (at < end) × (end ≤ length s.now) }
    ensures { (u : ℕ) → skipped u result ≡ view (letters (end - at) u at (drop at s.now)) }
{
    let second = at + 1;
    if leads(t, s[at]) {
        skip_following(s, t, second, end)
    } else {
        fault(Reason::BadName, at)
    }
}

// Whether they are plainly no word, by the first and how many they are, or by the last.
pub fn is_plain(s: &[u8], form: Form, t: &[u32; 256], at: usize, end: usize) -> bool
    requires alphabet { Alphabet (spelling_of form) t.now }
    requires at_lt_end { (at < end) × (end ≤ at + name_most) × (end ≤ length s.now) }
    ensures { result ≡ true → (spelling_of form).allowed (take (end - at) (drop at s.now)) ≡ true }
{
    if starts(t, s[at], end - at) {
        return true;
    }
    // no word ends in a digit
    s[end - 1] < b'A'
}

// The letters of a name, up to `end`, which are no word.
pub fn skip_spelled(
    s: &[u8],
    form: Form,
    t: &[u32; 256],
    at: usize,
    end: usize,
) -> Result<usize, Fault>
    requires alphabet { Alphabet (spelling_of form) t.now }
    requires at_lt_end { (at < end) × (end ≤ at + name_most) × (end ≤ length s.now) }
    ensures { (u : ℕ) → skipped u result ≡ view (spelled (spelling_of form) (end - at) u at (drop at s.now)) }
{
    let next = skip_letters(s, t, at, end)?;
    if is_plain(s, form, t, at, end) {
        return Ok(next);
    }
    if is_word(s, form, at, end - at) {
        return fault(Reason::ReservedWord, at);
    }
    Ok(next)
}

// Where the name at `at` ends, if it is good and plainly no word.
// Kept: a quick way beside the exact `skip_name`, which alone knows the fault.
pub fn plain_end(s: &[u8], form: Form, t: &[u32; 256], at: usize) -> Option<usize>
    requires alphabet { Alphabet (spelling_of form) t.now }
    requires at_in_bounds { at < length s.now }
    ensures { IfSome result (λ next. (u : ℕ) → past next u ≡ view (name (spelling_of form) u at (drop at s.now))) }
{
    let n = s[at] as usize;
    let first = at + 1;
    let left = s.len() - first;
    if n < 1 {
        return None;
    }
    if longest_name(form) < n {
        return None;
    }
    if left < n {
        return None;
    }
    match skip_letters(s, t, first, first + n) {
        Ok(past) => {
            if is_plain(s, form, t, first, first + n) {
                return Some(past);
            }
            None
        }
        Err(_) => None,
    }
}

pub fn skip_name(s: &[u8], form: Form, t: &[u32; 256], at: usize) -> Result<usize, Fault>
    requires { Alphabet (spelling_of form) t.now }
    ensures { (u : ℕ) → skipped u result ≡ view (name (spelling_of form) u at (drop at s.now)) }
{
    if s.len() <= at {
        return fault(Reason::EndsInside, at);
    }
    let n = s[at] as usize;
    let first = at + 1;
    let left = s.len() - first;
    if n < 1 {
        return fault(Reason::BadName, at);
    }
    if longest_name(form) < n {
        return fault(Reason::BadName, at);
    }
    if left < n {
        return fault(Reason::EndsInside, s.len());
    }
    skip_spelled(s, form, t, first, first + n)
}

pub fn skip_names(s: &[u8], form: Form, t: &[u32; 256], at: usize, n: usize) -> Result<usize, Fault>
    requires alphabet { Alphabet (spelling_of form) t.now }
    requires at_in_bounds { at ≤ length s.now }
    ensures { (u : ℕ) → skipped u result ≡ view (times (name (spelling_of form)) n u at (drop at s.now)) }
{
    let mut p = at;
    for _ in 0..n {
        p = skip_name(s, form, t, p)?;
    }
    Ok(p)
}
