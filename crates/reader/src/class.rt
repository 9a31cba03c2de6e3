// What is read alike in terms and formulas: the classes of bytes, and names.
ghost use Rattle.std.specs.Prelude.{◌≡◌, true, ◌+◌, ◌-◌, ◌≤◌, length, replicate};
ghost use Rattle.std.proofs.lemmas.List.Edits.{sets};
ghost use Rattle.rules.specs.Layout.{head_by_tag};
ghost use Rattle.rules.specs.Name.{leads as leads_name, follows as follows_name, name_most};
ghost use Rattle.reader.specs.Form.{layout_of};
ghost use Rattle.reader.specs.Classes.{Letters, starts_of, Classes, code_at};
ghost use Rattle.reader.specs.Tables.{letters_in, beginnings_in, table_of_letters};

use rules::{LONGEST_ATOM, LONGEST_NAME};

// The two forms: a tag, then names, then parts.
#[derive(Clone, Copy)]
pub enum Form {
    Term,
    Formula,
}

// The place after what was read, and the nodes met so far.
#[derive(Clone, Copy)]
pub struct Past {
    pub next: usize,
    pub met: usize,
}

// How many bytes a name may have.
pub fn longest_name(form: Form) -> usize
    ensures { result ≡ (layout_of form).spelling.longest }
{
    match form {
        Form::Term => LONGEST_NAME,
        Form::Formula => LONGEST_ATOM,
    }
}

// What a byte may be, by a table: 1 that it is a tag, 2 for each of its names, 8 for each of its parts, 32 that it follows in a name, and 64 times
// 2^n that it leads names of n letters and no word of n letters.
// Kept: a table beside its form, of which `requires` says what is asked: names ask less of it (`Letters`, `Alphabet`) than nodes (`Classes`), so one struct would
// ask more of `is_plain`, `skip_spelled` and `plain_end`, and three would be turned into each other at each call.

const TAG: u32 = 1;

const NAME: u32 = 2;

const PART: u32 = 8;

const DIGIT: u32 = 32;

// It leads names of each length, from one letter to the most.
const LETTER: u32 = DIGIT + (128 << LONGEST_NAME) - 128;

const OF_TWO: u32 = 64 << 2;

const OF_THREE: u32 = 64 << 3;

const OF_FOUR: u32 = 64 << 4;

const OF_SIX: u32 = 64 << 6;

const OF_SEVEN: u32 = 64 << 7;

const OF_EIGHT: u32 = 64 << 8;

// In the order of the tags, from 0 on.
const TERM_TAGS: [u32; 18] = [
    0,
    TAG + NAME, // Var
    TAG, // Unit
    TAG + 2 * PART, // Pair
    TAG + 2 * NAME + 2 * PART, // LetPair
    TAG + NAME + PART, // Abs
    TAG + 2 * PART, // App
    TAG + PART, // Inl
    TAG + PART, // Inr
    TAG + 2 * NAME + 3 * PART, // Case
    TAG, // Trivial
    TAG + PART, // Fst
    TAG + PART, // Snd
    TAG + PART, // Abort
    TAG + PART, // Promote
    TAG + PART, // Derelict
    TAG + 2 * PART, // Discard
    TAG + 2 * NAME + 2 * PART, // Copy
];

const FORMULA_TAGS: [u32; 14] = [
    0,
    TAG + NAME, // Atom
    TAG + NAME, // NegAtom
    TAG + 2 * PART, // Tensor
    TAG + 2 * PART, // Par
    TAG, // One
    TAG, // Bottom
    TAG + 2 * PART, // With
    TAG + 2 * PART, // Plus
    TAG, // Top
    TAG, // Zero
    TAG + PART, // OfCourse
    TAG + PART, // WhyNot
    TAG + 2 * PART, // Lolli
];

// The bytes from `from` to `to` are of that class. By loops here and below: by std's `fill` and `copy_from_slice` the table is copied twice more, and
// a check of one node takes a fifth longer.
fn mark(t: &mut [u32; 256], from: u8, to: u8, class: u32)
    requires { from ≤ to }
    ensures { t.new ≡ sets t.old from (replicate (to + 1 - from) class) }
{
    for b in from as usize..to as usize + 1 {
        t[b] = class;
    }
}

fn put_tags(t: &mut [u32; 256], tags: &[u32])
    requires { length tags.now ≤ 256 }
    ensures { t.new ≡ sets t.old 0 tags.now }
{
    for b in 0..tags.len() {
        t[b] = tags[b];
    }
}

// The bytes of names: digits, letters and `_`.
fn put_letters(t: &mut [u32; 256])
    ensures { t.new ≡ letters_in t.old }
{
    mark(t, b'0', b'9', DIGIT);
    mark(t, b'A', b'Z', LETTER);
    mark(t, b'_', b'_', LETTER);
    mark(t, b'a', b'z', LETTER);
}

// The letters that begin a word, counted from a small or a capital `a` on.
fn put_beginnings(t: &mut [u32; 256], first: u8)
    requires { first ≤ 97 }
    ensures { t.new ≡ beginnings_in t.old first }
{
    let a = first as usize;
    t[a] = LETTER - OF_TWO - OF_SIX; // as absurd
    t[a + 2] = LETTER - OF_FOUR; // case copy
    t[a + 3] = LETTER - OF_SEVEN - OF_EIGHT; // discard derelict
    t[a + 5] = LETTER - OF_THREE; // fst
    t[a + 8] = LETTER - OF_TWO - OF_THREE; // in inl inr
    t[a + 11] = LETTER - OF_THREE; // let
    t[a + 14] = LETTER - OF_TWO; // of
    t[a + 18] = LETTER - OF_THREE; // snd
}

pub fn letter_table() -> [u32; 256]
    ensures { result ≡ table_of_letters }
{
    let mut t = [0u32; 256];
    put_letters(&mut t);
    put_beginnings(&mut t, b'a');
    t
}

pub fn table_of(form: Form) -> [u32; 256]
    ensures { Classes (layout_of form) result }
{
    let mut t = letter_table();
    match form {
        Form::Term => {
            put_tags(&mut t, &TERM_TAGS);
        }
        Form::Formula => {
            put_beginnings(&mut t, b'A');
            put_tags(&mut t, &FORMULA_TAGS);
        }
    }
    t
}

pub fn leads(t: &[u32; 256], b: u8) -> bool
    requires { Letters t.now }
    ensures { result ≡ leads_name b }
{
    t[b as usize] / 128 % 2 == 1
}

pub fn follows(t: &[u32; 256], b: u8) -> bool
    requires { Letters t.now }
    ensures { result ≡ follows_name b }
{
    t[b as usize] / 32 % 2 == 1
}

// Whether b leads names of n letters and no word of n letters.
pub fn starts(t: &[u32; 256], b: u8, n: usize) -> bool
    requires letters { Letters t.now }
    requires n_le_name_most { n ≤ name_most }
    ensures { result ≡ starts_of t.now b n }
{
    (t[b as usize] as usize >> n) / 64 % 2 == 1
}

// What a tag has: 0 for none, else 1, 2 for each name, 8 for each part.
// Kept: 0 and no Option: it comes out of the table with the names and the parts, and one test tells it.
pub fn code_of(form: Form, t: &[u32; 256], b: u8) -> usize
    requires { Classes (layout_of form) t.now }
    ensures { result ≡ code_at (layout_of form) (head_by_tag (layout_of form).heads b) }
{
    (t[b as usize] % 32) as usize
}

// Whether a tag has one part and no names.
pub fn is_one(form: Form, t: &[u32; 256], b: u8) -> bool
    requires { Classes (layout_of form) t.now }
    ensures { result ≡ true → code_at (layout_of form) (head_by_tag (layout_of form).heads b) ≡ 9 }
{
    t[b as usize] == TAG + PART
}
