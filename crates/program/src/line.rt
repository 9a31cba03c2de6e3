// What the program patchrun prints besides a term: numbers, fields, and the two lines that report a run.
ghost use Rattle.std.specs.Prelude.{[], ◌∷◌, ◌+◌, ◌≤◌, length};
ghost use Rattle.rules.specs.Basic.{say, ◌‥◌};
ghost use Rattle.rules.specs.Program.{yes_no, counts_line, refusal_line};
ghost use Rattle.buffer.specs.Wrote.{Wrote};
ghost use Rattle.program.specs.Field.{Field, Fields, Line, fields_room};

use buffer::run::copy;
use rules::{Counts, Refusal};
use words::digit::put_decimal;

// A word, then a number, which has at most 20 digits.
// Kept: functions over a lent buffer and no Display, since a contract says which bytes stand where in it.
fn put_field(word: &[u8], n: u64, out: &mut [u8], at: usize) -> usize
    requires { at + (length word.now + 20) ≤ length out.old }
    ensures { Field out.old at word.now n out.new result }
{
    let past = copy(word, 0, word.len(), out, at);
    put_decimal(n, out, past)
}

// The line of a refusal.
pub fn put_refusal(r: Refusal, out: &mut [u8], at: usize) -> usize
    requires { at + 64 ≤ length out.old }
    ensures { Line out.old at (refusal_line r) 64 out.new result }
{
    let number = put_field(b"refused ", r.reason.number() as u64, out, at);
    let place = put_field(b" at ", r.place as u64, out, number);
    out[place] = 10;
    place + 1
}

// Words, each with its number, one after the other.
fn put_fields(fields: &[(&[u8], u32)], out: &mut [u8], at: usize) -> usize
    requires { at + fields_room fields.now ≤ length out.old }
    ensures { Fields out.old at fields.now out.new result }
{
    let mut past = at;
    for (word, number) in fields {
        past = put_field(word, u64::from(*number), out, past);
    }
    past
}

// Whether no step remains, and the end of the line.
fn put_normal(normal: bool, out: &mut [u8], at: usize) -> usize
    requires { at + 12 ≤ length out.old }
    ensures { Wrote out.old at (say " normal " ‥ say (yes_no normal) ‥ 10 ∷ []) out.new result }
{
    let text: &[u8] = if normal {
        b" normal yes\n"
    } else {
        b" normal no\n"
    };
    copy(text, 0, text.len(), out, at)
}

// The line of the counts: total, then each rule's count, then yes or no.
pub fn put_counts(steps: u32, counts: Counts, normal: bool, out: &mut [u8], at: usize) -> usize
    requires { at + 256 ≤ length out.old }
    ensures { Line out.old at (counts_line steps counts normal) 256 out.new result }
{
    let fields: [(&[u8], u32); 9] = [
        (b"steps ", steps),
        (b" app ", counts.app),
        (b" let ", counts.lets),
        (b" case ", counts.case),
        (b" fst ", counts.fst),
        (b" snd ", counts.snd),
        (b" derelict ", counts.derelict),
        (b" copy ", counts.copy),
        (b" discard ", counts.discard),
    ];
    let past = put_fields(&fields, out, at);
    put_normal(normal, out, past)
}
