// The names of a draft: a stem and a number.
ghost use Rattle.std.specs.Prelude.{◌≡◌, ◌+◌, ◌-◌, ◌≤◌, length};
ghost use Rattle.std.proofs.Math.Seq.{slice};
ghost use Rattle.rules.specs.Basic.{decimal};
ghost use Rattle.rules.specs.Name.{encode_name, lower};
ghost use Rattle.buffer.specs.Wrote.{Wrote};
ghost use Rattle.draft.specs.Draft.{stem_at, numbered, name_of, x_name, last_two};

use rules::lower_byte;
use words::digit::put_decimal;

// How many digits a number has: most have three at most.
fn digit_count(n: usize) -> usize
    ensures { result ≡ length (decimal n) }
{
    let mut rest = n;
    let mut count = 0;
    while 1000 <= rest {
        rest = rest / 1000;
        count += 3;
    }
    if rest < 10 {
        return count + 1;
    }
    if rest < 100 {
        return count + 2;
    }
    count + 3
}

// The last two digits of a number.
fn put_two_digits(n: usize, out: &mut [u8], at: usize) -> usize
    requires { at + 2 ≤ length out.old }
    ensures { Wrote out.old at (last_two n) out.new result }
{
    out[at] = b'0' + (n / 10 % 10) as u8;
    out[at + 1] = b'0' + (n % 10) as u8;
    at + 2
}

// The digits of a number: three at most without a call.
// Kept: beside words::digit, which it calls for four digits and more; so most names are written without a call.
fn put_digits(n: usize, out: &mut [u8], at: usize) -> usize
    requires { at + length (decimal n) ≤ length out.old }
    ensures { Wrote out.old at (decimal n) out.new result }
{
    if n < 10 {
        out[at] = b'0' + n as u8;
        return at + 1;
    }
    if n < 100 {
        return put_two_digits(n, out, at);
    }
    if n < 1000 {
        out[at] = b'0' + (n / 100) as u8;
        return put_two_digits(n, out, at + 1);
    }
    let past = put_decimal((n / 100) as u64, out, at);
    put_two_digits(n, out, past)
}

fn number_len(number: usize) -> usize
    ensures { result ≡ length (numbered number) }
{
    if number == 0 {
        return 0;
    }
    digit_count(number - 1)
}

// At most what is left of s.
fn stem_len(s: &[u8], stem: usize) -> usize
    ensures { (result ≡ length (stem_at s.now stem)) × (result ≤ 255) }
{
    if stem == 0 {
        return 1;
    }
    if s.len() <= stem {
        return 0;
    }
    let most = s.len() - stem - 1;
    most.min(s[stem] as usize)
}

pub fn name_len(s: &[u8], stem: usize, number: usize) -> usize
    ensures { (result ≡ length (name_of s.now stem number)) × (result ≤ 275) }
{
    stem_len(s, stem) + number_len(number)
}

// The length of the name `x` and a number.
pub fn x_len(number: usize) -> usize
    ensures { (result ≡ length (x_name number)) × (result ≤ 21) }
{
    1 + digit_count(number)
}

// Copies s[from..end] in lower case to out from `to` on, and returns the place after it.
fn put_lower(s: &[u8], from: usize, end: usize, out: &mut [u8], to: usize) -> usize
    requires { (from ≤ end) × (end ≤ length s.now) × (to + (end - from) ≤ length out.old) }
    ensures { Wrote out.old to (lower (slice from end s.now)) out.new result }
{
    for i in from..end {
        out[to + (i - from)] = lower_byte(s[i]);
    }
    to + (end - from)
}

fn put_stem(s: &[u8], stem: usize, out: &mut [u8], at: usize) -> usize
    requires { at + length (stem_at s.now stem) ≤ length out.old }
    ensures { Wrote out.old at (stem_at s.now stem) out.new result }
{
    if stem == 0 {
        out[at] = 120;
        return at + 1;
    }
    let n = stem_len(s, stem);
    if n == 0 {
        return at;
    }
    put_lower(s, stem + 1, stem + 1 + n, out, at)
}

fn put_number(number: usize, out: &mut [u8], at: usize) -> usize
    requires { at + length (numbered number) ≤ length out.old }
    ensures { Wrote out.old at (numbered number) out.new result }
{
    if number == 0 {
        return at;
    }
    put_digits(number - 1, out, at)
}

// Writes a name: its length, the stem in lower case, the digits.
pub fn put_name(s: &[u8], stem: usize, number: usize, out: &mut [u8], at: usize) -> usize
    requires { (at + length (encode_name (name_of s.now stem number)) ≤ length out.old) × (length (name_of s.now stem number) ≤ 255) }
    ensures { Wrote out.old at (encode_name (name_of s.now stem number)) out.new result }
{
    let n = name_len(s, stem, number);
    out[at] = n as u8;
    let past = put_stem(s, stem, out, at + 1);
    put_number(number, out, past)
}

// Writes the name `x` and a number.
pub fn put_x(number: usize, out: &mut [u8], at: usize) -> usize
    requires { at + length (encode_name (x_name number)) ≤ length out.old }
    ensures { Wrote out.old at (encode_name (x_name number)) out.new result }
{
    let n = x_len(number);
    out[at] = n as u8;
    let stem = at + 1;
    out[stem] = 120;
    put_digits(number, out, stem + 1)
}
