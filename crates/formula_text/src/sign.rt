// What is printed of a formula's tag.
ghost use Rattle.std.specs.Prelude.{◌≡◌, ◌+◌, ◌≤◌, ◌<◌, length};
ghost use Rattle.words.specs.Prints.{Prints};
ghost use Rattle.formula_text.specs.Words.{sign_of, opening_of};

use reader::formula_tag::{OF_COURSE, WHY_NOT};
use words::word::first;

// The word of each tag from 0 on, as it is written, and how many of its bytes count. It is read from a table, so that there is no branch.
static SIGNS: [([u8; 8], usize); 16] = [
    (*b"        ", 0),
    (*b"        ", 0),
    (*b"\xe2\x8a\xa5     ", 3), // ⊥
    (*b" \xe2\x8a\x97    ", 5), // ⊗
    (*b" \xe2\x85\x8b    ", 5), // ⅋
    (*b"1       ", 1),
    (*b"\xe2\x8a\xa5     ", 3), // ⊥
    (*b" &      ", 3),
    (*b" \xe2\x8a\x95    ", 5), // ⊕
    (*b"\xe2\x8a\xa4     ", 3), // ⊤
    (*b"0       ", 1),
    (*b"!       ", 1),
    (*b"?       ", 1),
    (*b" \xe2\x8a\xb8    ", 5), // ⊸
    (*b"        ", 0),
    (*b"        ", 0),
];

pub fn sign(tag: u8, out: &mut [u8], to: usize) -> usize
    requires { to + 8 ≤ length out.old }
    ensures { Prints out.old to (sign_of tag) out.new result }
{
    let (bytes, long) = &SIGNS[(tag % 16) as usize];
    first(out, to, bytes, *long)
}

// What is printed before the parts of an exponential or a connective.
pub fn opening(tag: u8) -> u8
    ensures { result ≡ opening_of tag }
{
    match tag {
        OF_COURSE => b'!',
        WHY_NOT => b'?',
        _ => b'(',
    }
}
