// Reads terms and formulas: first ahead over what is good, by few tests, and from where that ends exactly.
// Going ahead tests tags, lengths and the first byte of each name, and stops before a node where one is not good, where a name is a word or
// where the bytes end soon. The other bytes of names are not looked at there: they are counted afterwards, and where as many of all bytes are letters as were taken for letters,
// those are the letters, since no tag and no length is one.
ghost use Rattle.std.specs.Prelude.{◌≡◌, true, ℕ, ◌+◌, ◌-◌, ◌≤◌, ◌<◌, length, take, drop, slice_index, IfSome};
ghost use Rattle.rules.specs.Name.{leads as leads_name, name_most};
ghost use Rattle.rules.specs.Reading.{times, node};
ghost use Rattle.reader.specs.Form.{layout_of};
ghost use Rattle.reader.specs.Classes.{Classes, Alphabet};
ghost use Rattle.reader.specs.View.{view};
ghost use Rattle.reader.specs.Words.{spelling_of};
ghost use Rattle.reader.specs.Passed.{OnePassed};
ghost use Rattle.reader.specs.Letters.{letters_from};
ghost use Rattle.reader.specs.Count.{NameTo, NamesTo, Gone};

use crate::class::{Form, Past, code_of, is_one, leads, longest_name, starts};
use crate::letters::count_letters;
use crate::name::{fault, is_plain};
use crate::node;
use crate::node::room_for;
use crate::word::is_word;
use rules::{Fault, Reason};

// Where it stopped; the nodes met, those known, which are the ones to be read and the parts of those met, and the names of those met.
#[derive(Clone, Copy)]
pub struct Ahead {
    pub next: usize,
    pub met: usize,
    pub known: usize,
    pub names: usize,
}

// Whether the n letters at `at` begin as a name does and are no word. It is asked of few, those whose first letter begins a word as long, and is a call, so
// that what is said quickly of the others is none.
#[cold]
#[inline(never)]
fn is_no_word(s: &[u8], form: Form, t: &[u32; 256], at: usize, n: usize) -> bool
    requires alphabet { Alphabet (spelling_of form) t.now }
    requires at_in_bounds { (at < length s.now) × (n ≤ name_most) }
    ensures { result ≡ true → (1 ≤ n) × (leads_name (slice_index s.now at) ≡ true) × ((spelling_of form).allowed (take n (drop at s.now)) ≡ true) }
{
    if n < 1 || s.len() - at < n || !leads(t, s[at]) {
        return false;
    }
    if is_plain(s, form, t, at, at + n) {
        return true;
    }
    !is_word(s, form, at, n)
}

// Where the name at `at` ends, if its length and its first letter are good and it is no word.
fn name_end(s: &[u8], form: Form, t: &[u32; 256], at: usize) -> Option<usize>
    requires alphabet { Alphabet (spelling_of form) t.now }
    requires at_in_bounds { at + 1 < length s.now }
    ensures { IfSome result (λ end. NameTo s.now (spelling_of form) at end) }
{
    let n = s[at] as usize;
    let first = at + 1;
    if longest_name(form) < n {
        return None;
    }
    if starts(t, s[first], n) || is_no_word(s, form, t, first, n) {
        return Some(first + n);
    }
    None
}

// Where that many names end, if they are good. Two bytes can be read at every place up to `stop`.
// Kept: tests of the number in turn; a `match` or a loop over the names takes half as long again.
pub fn names_end(
    s: &[u8],
    form: Form,
    t: &[u32; 256],
    at: usize,
    names: usize,
    stop: usize,
) -> Option<usize>
    requires alphabet { Alphabet (spelling_of form) t.now }
    requires at_le_stop { (at ≤ stop) × (stop + 1 < length s.now) }
    ensures { IfSome result (λ end. NamesTo s.now (spelling_of form) at names end) }
{
    if names == 0 {
        return Some(at);
    }
    let first = name_end(s, form, t, at)?;
    if names == 1 {
        return Some(first);
    }
    if names != 2 || stop < first {
        return None;
    }
    name_end(s, form, t, first)
}

// The last place where two bytes can be read, and 0 where there is none.
pub fn last_pair(end: usize) -> usize
    ensures { result ≡ end - 2 }
{
    end.saturating_sub(2)
}

// From `at` on, where n nodes are to be read.
pub fn go_ahead(s: &[u8], form: Form, t: &[u32; 256], at: usize, end: usize, n: usize) -> Ahead
    requires classes { Classes (layout_of form) t.now }
    requires at_le_end { (at ≤ end) × (end ≤ length s.now) × (end - at ≤ 65536) × (n ≤ 65536) }
    ensures { Gone (layout_of form) s.now at n result.next result.met result.known result.names × (result.met ≤ 65600) }
{
    let stop = last_pair(end);
    let mut gone = Ahead {
        next: at,
        met: 0,
        known: n,
        names: 0,
    };
    // by `return` and not by `break`, which LLVM makes a loop of that is a third slower
    while gone.met < gone.known {
        if stop <= gone.next {
            return gone;
        }
        let code = code_of(form, t, s[gone.next]);
        if code == 0 {
            return gone;
        }
        let few = code / 2 % 4;
        let Some(past) = names_end(s, form, t, gone.next + 1, few, stop) else {
            return gone;
        };
        gone.next = past;
        gone.met += 1;
        gone.known += code / 8;
        gone.names += few;
    }
    gone
}

// The most bytes that are gone over at once.
const MOST_AHEAD: usize = 65536;

// Whether all that was taken for letters is letters, within the bytes and the nodes that there may be.
pub fn holds(s: &[u8], at: usize, gone: Ahead, room: usize) -> bool
    requires { at + (gone.met + gone.names) ≤ gone.next }
    ensures { result ≡ true → (gone.next ≤ length s.now) × (gone.met ≤ room) × (letters_from s.now at (gone.next - at) ≡ gone.next - at - (gone.met + gone.names)) }
{
    if s.len() < gone.next {
        return false;
    }
    if room < gone.met {
        return false;
    }
    count_letters(s, at, gone.next) == gone.next - at - (gone.met + gone.names)
}

// Where the next `room` bytes of s end, or s does.
fn end_within(s: &[u8], at: usize, room: usize) -> usize
    requires { at ≤ length s.now }
    ensures { (result ≤ length s.now) × (result - at ≤ room) × (at ≤ result) }
{
    at + room.min(s.len() - at)
}

// Reads n nodes in a row from `at` on, where `used` were met before: from where the good ones end that were gone over, if they are.
#[inline(always)]
pub fn read_on(
    s: &[u8],
    form: Form,
    t: &[u32; 256],
    at: usize,
    used: usize,
    most: usize,
    n: usize,
    gone: Ahead,
) -> Result<Past, Fault>
    requires classes { Classes (layout_of form) t.now }
    requires most_bound { (most ≤ 65536) × (n ≤ 65536) }
    requires gone { Gone (layout_of form) s.now at n gone.next gone.met gone.known gone.names × (gone.met ≤ 65600) }
    ensures { result ≡ view (times (node (layout_of form) most most) n used at (drop at s.now)) }
{
    if holds(s, at, gone, room_for(most, used)) {
        return node::read_row(
            s,
            form,
            t,
            gone.next,
            used + gone.met,
            most,
            gone.known - gone.met,
        );
    }
    node::read_row(s, form, t, at, used, most, n)
}

// Reads n nodes in a row from `at` on, where `used` were met before.
pub fn read_row(
    s: &[u8],
    form: Form,
    t: &[u32; 256],
    at: usize,
    used: usize,
    most: usize,
    n: usize,
) -> Result<Past, Fault>
    requires classes { Classes (layout_of form) t.now }
    requires most_bound { (most ≤ 65536) × (n ≤ 65536) }
    ensures { result ≡ view (times (node (layout_of form) most most) n used at (drop at s.now)) }
{
    if s.len() <= at {
        return node::read_row(s, form, t, at, used, most, n);
    }
    let end = end_within(s, at, MOST_AHEAD);
    let gone = go_ahead(s, form, t, at, end, n);
    read_on(s, form, t, at, used, most, n, gone)
}

// Passes nodes with one part and no names, up to `end`: after each there is still one node to be read.
fn pass_ones(s: &[u8], form: Form, t: &[u32; 256], at: usize, end: usize) -> usize
    requires classes { Classes (layout_of form) t.now }
    requires end_in_bounds { (at ≤ end) × (end ≤ length s.now) }
    ensures { (at ≤ result) × (result - at ≤ end - at) × ((most : ℕ) → (used : ℕ) → (at < result → used + (result - at) ≤ most) → OnePassed (layout_of form) most s.now used at result) }
{
    for p in at..end {
        if !is_one(form, t, s[p]) {
            return p;
        }
    }
    end
}

// Reads one node from `at` on, where `used` were met before.
pub fn read_from(
    s: &[u8],
    form: Form,
    t: &[u32; 256],
    at: usize,
    used: usize,
    most: usize,
) -> Result<Past, Fault>
    requires classes { Classes (layout_of form) t.now }
    requires most_bound { most ≤ 65536 }
    ensures { (depth : ℕ) → most ≤ used + depth → result ≡ view (node (layout_of form) most depth used at (drop at s.now)) }
{
    if s.len() <= at {
        return fault(Reason::EndsInside, at);
    }
    let end = end_within(s, at, room_for(most, used));
    let past = pass_ones(s, form, t, at, end);
    read_row(s, form, t, past, used + (past - at), most, 1)
}
