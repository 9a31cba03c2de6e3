// The head of a row's term: its tag, and what stands between it and the parts.
ghost use Rattle.std.specs.Prelude.{◌≡◌, ◌+◌, ◌<◌, ◌≤◌, [], length};
ghost use Rattle.rules.specs.Basic.{◌‥◌};
ghost use Rattle.rules.specs.Name.{encode_name};
ghost use Rattle.buffer.specs.Wrote.{Wrote};
ghost use Rattle.draft.specs.Draft.{x_name, shape_of, identity};
ghost use Rattle.draft.specs.Made.{most_number};
ghost use Rattle.draft.specs.Heads.{variable, middle, front, Middleroom};

use crate::name::{name_len, put_name, put_x, x_len};
use crate::row::{Row, RowKind};

fn put_variable(number: usize, out: &mut [u8], at: usize) -> usize
    requires { at + length (variable number) ≤ length out.old }
    ensures { Wrote out.old at (variable number) out.new result }
{
    out[at] = 1;
    put_x(number, out, at + 1)
}

fn put_two_names(first: usize, second: usize, out: &mut [u8], at: usize) -> usize
    requires { at + (length (encode_name (x_name first)) + length (encode_name (x_name second))) ≤ length out.old }
    ensures { Wrote out.old at (encode_name (x_name first) ‥ encode_name (x_name second)) out.new result }
{
    let past = put_x(first, out, at);
    put_x(second, out, past)
}

fn put_identity(number: usize, out: &mut [u8], at: usize) -> usize
    requires { at + length (middle [] number 0 identity) ≤ length out.old }
    ensures { Wrote out.old at (middle [] number 0 identity) out.new result }
{
    let past = put_x(number, out, at);
    put_variable(number, out, past)
}

fn put_middle(s: &[u8], row: &Row, out: &mut [u8], at: usize) -> usize
    requires { Middleroom s.now out.old at row.now }
    ensures { Wrote out.old at (middle s.now row.now.number row.now.stem (shape_of row.now.kind)) out.new result }
{
    let number = row.number;
    match row.kind {
        RowKind::Named => put_name(s, row.stem, number, out, at),
        RowKind::Identity => put_identity(number, out, at),
        RowKind::Discard => {
            out[at] = 2;
            at + 1
        }
        RowKind::LetPair | RowKind::Case => put_two_names(number, number + 1, out, at),
        RowKind::Copy => {
            let past = put_two_names(number, number + 1, out, at);
            put_variable(number + 2, out, past)
        }
        _ => at,
    }
}

// Writes the head of a row's term.
pub fn put_head(s: &[u8], row: &Row, out: &mut [u8], at: usize) -> usize
    requires { Middleroom s.now out.old (at + 1) row.now }
    ensures { Wrote out.old at (front s.now row.now) out.new result }
{
    out[at] = row.kind.tag();
    put_middle(s, row, out, at + 1)
}

// How long the head of a row's term is: at most 64 and a name.
pub fn head_len(s: &[u8], row: &Row) -> usize
    requires { row.now.number < most_number }
    ensures { (result ≡ length (front s.now row.now)) × (result ≤ 300) }
{
    let number = row.number;
    match row.kind {
        RowKind::Named => 2 + name_len(s, row.stem, number),
        RowKind::Identity => 4 + 2 * x_len(number),
        RowKind::Discard => 2,
        RowKind::LetPair | RowKind::Case => 3 + x_len(number) + x_len(number + 1),
        RowKind::Copy => 5 + x_len(number) + x_len(number + 1) + x_len(number + 2),
        _ => 1,
    }
}
