// The text of a checked term. A walk hands back the place after the text, times 65,536, and the place after the bytes, in one number,
// since a struct would come back by way of memory.
ghost use Rattle.rules.specs.Name.{Name};
ghost use Rattle.rules.specs.Term.{Term, two as two_of, both as both_of, branch as branch_of, discard as discard_of, let_a_pair as let_pair_of, copy as copy_of};
ghost use Rattle.term_text.specs.Task.{TermTask, TermDone, Whole};

use crate::phrase::{case_end, last_name, leaf, one_name, past_names, sign, two_names};
use term::node::{one_part, skip};
use term::tag::{ABS, APP, CASE, DISCARD, LET_PAIR, PAIR, TRIVIAL, UNIT, VAR};
use words::name::past;
use words::word::{byte, closed, word};

// The first part is not printed.
#[cycle(case_copy_discard_let_pair_walk_whole)]
fn discard(s: &[u8], at: usize, out: &mut [u8], to: usize) -> usize
    requires { (a : Term) × (b : Term) × TermTask s.now at out.old to (two_of discard_of a b) }
    ensures { (a : Term) → (b : Term) → TermTask s.now at out.old to (two_of discard_of a b) → TermDone at out.old to (two_of discard_of a b) out.new result }
{
    let x = at + 1;
    let a = word(out, to, b"discard in ");
    walk(&*s, skip(s, x, 1), out, a)
}

#[cycle(case_copy_discard_let_pair_walk_whole)]
fn let_pair(s: &[u8], at: usize, out: &mut [u8], to: usize) -> usize
    requires { (x : Name) × (y : Name) × (e : Term) × (b : Term) × TermTask s.now at out.old to (both_of let_pair_of x y e b) }
    ensures { (x : Name) → (y : Name) → (e : Term) → (b : Term) → TermTask s.now at out.old to (both_of let_pair_of x y e b) → TermDone at out.old to (both_of let_pair_of x y e b) out.new result }
{
    let x = at + 1;
    let a = two_names(s, x, out, to, b"let (", b") = ");
    let e = walk(&*s, past_names(s, x), out, a);
    let b = word(out, e / 65536, b" in ");
    walk(&*s, e % 65536, out, b)
}

#[cycle(case_copy_discard_let_pair_walk_whole)]
fn copy(s: &[u8], at: usize, out: &mut [u8], to: usize) -> usize
    requires { (x : Name) × (y : Name) × (e : Term) × (b : Term) × TermTask s.now at out.old to (both_of copy_of x y e b) }
    ensures { (x : Name) → (y : Name) → (e : Term) → (b : Term) → TermTask s.now at out.old to (both_of copy_of x y e b) → TermDone at out.old to (both_of copy_of x y e b) out.new result }
{
    let x = at + 1;
    let a = word(out, to, b"copy ");
    let e = walk(&*s, past_names(s, x), out, a);
    let b = two_names(s, x, out, e / 65536, b" as (", b") in ");
    walk(&*s, e % 65536, out, b)
}

#[cycle(case_copy_discard_let_pair_walk_whole)]
fn case(s: &[u8], at: usize, out: &mut [u8], to: usize) -> usize
    requires { (x : Name) × (y : Name) × (e : Term) × (l : Term) × (m : Term) × TermTask s.now at out.old to (branch_of x y e l m) }
    ensures { (x : Name) → (y : Name) → (e : Term) → (l : Term) → (m : Term) → TermTask s.now at out.old to (branch_of x y e l m) → TermDone at out.old to (branch_of x y e l m) out.new result }
{
    let x = at + 1;
    let y = past(s, x);
    let a = word(out, to, b"case ");
    let e = walk(&*s, past_names(s, x), out, a);
    let b = one_name(s, x, out, e / 65536, b" of { inl ", b" => ");
    let l = walk(&*s, e % 65536, out, b);
    let c = one_name(s, y, out, l / 65536, b" | inr ", b" => ");
    let r = walk(&*s, l % 65536, out, c);
    case_end(out, r)
}

// A leaf, let, copy, case or discard.
#[cycle(case_copy_discard_let_pair_walk_whole)]
fn whole(s: &[u8], at: usize, out: &mut [u8], to: usize) -> usize
    requires { (t : Term) × Whole t × TermTask s.now at out.old to t }
    ensures { (t : Term) → Whole t → TermTask s.now at out.old to t → TermDone at out.old to t out.new result }
{
    match s[at] {
        UNIT | TRIVIAL => leaf(&*s, at, out, to),
        LET_PAIR => let_pair(&*s, at, out, to),
        CASE => case(&*s, at, out, to),
        DISCARD => discard(&*s, at, out, to),
        _ => copy(&*s, at, out, to),
    }
}

// A term of any shape: a call on each of its parts.
#[cycle(case_copy_discard_let_pair_walk_whole)]
pub fn walk(s: &[u8], at: usize, out: &mut [u8], to: usize) -> usize
    requires { (t : Term) × TermTask s.now at out.old to t }
    ensures { (t : Term) → TermTask s.now at out.old to t → TermDone at out.old to t out.new result }
{
    let tag = s[at];
    let x = at + 1;
    match tag {
        VAR => last_name(s, x, out, to, 0),
        PAIR | APP => {
            let a = byte(out, to, b'(');
            let l = walk(&*s, x, out, a);
            let b = sign(tag, out, l / 65536);
            let r = walk(&*s, l % 65536, out, b);
            closed(out, r, 1)
        }
        ABS => {
            let e = past(s, x);
            let o = one_name(s, x, out, to, b"\xce\xbb", b". ");
            walk(&*s, e, out, o)
        }
        _ if one_part(tag) => {
            let o = sign(tag, out, to);
            walk(&*s, x, out, o)
        }
        _ => whole(&*s, at, out, to),
    }
}
