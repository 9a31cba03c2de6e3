// One walk over a term that gathers its free names.
ghost use Rattle.std.specs.Prelude.{List};
ghost use Rattle.rules.specs.Name.{Name};
ghost use Rattle.rules.specs.Term.{Term};
ghost use Rattle.free.specs.Walk.{Task, Done};

use crate::row::NameRow;
use term::{node, tag};

// Puts the free names of the term at `at` into the row, but for those of the binders passed, which stand from low on; answers where the term ends.
// It calls itself on each part. What it hands on are numbers and thin references, so that a call on the last part is a jump. For that low is
// handed on too: as a field of the row it would have to be put back behind a part.
// Nodes with one part are told apart before the match, so that a chain of them goes by no jump table.
pub fn gather(s: &&[u8], at: usize, row: &mut NameRow, low: usize) -> usize
    requires { (t : Term) × (xs : List Name) × (l : List Name) × Task s.now.now at row.old.places low row.old.found t xs l }
    ensures { (t : Term) → (xs : List Name) → (l : List Name) → Task s.now.now at row.old.places low row.old.found t xs l → Done s.now.now at row.new.places low row.old.found t xs l result row.new.found }
{
    let first = at + 1;
    let kind = s[at];
    if node::one_part(kind) {
        return gather(s, first, row, low);
    }
    match kind {
        tag::VAR => {
            let next = node::after_names(*s, first, 1);
            row.meet(*s, first, low);
            next
        }
        tag::PAIR | tag::APP | tag::DISCARD => {
            let next = gather(s, first, row, low);
            gather(s, next, row, low)
        }
        tag::ABS => {
            let start = node::after_names(*s, first, 1);
            let inner = row.push(low, first);
            gather(s, start, row, inner)
        }
        tag::LET_PAIR | tag::COPY => {
            let second = node::after_names(*s, first, 1);
            let start = node::after_names(*s, second, 1);
            let body = gather(s, start, row, low);
            let outer = row.push(low, first);
            let inner = row.push(outer, second);
            gather(s, body, row, inner)
        }
        tag::CASE => {
            let second = node::after_names(*s, first, 1);
            let start = node::after_names(*s, second, 1);
            let left = gather(s, start, row, low);
            let in_left = row.push(low, first);
            let right = gather(s, left, row, in_left);
            let in_right = row.push(low, second);
            gather(s, right, row, in_right)
        }
        _ => first,
    }
}
