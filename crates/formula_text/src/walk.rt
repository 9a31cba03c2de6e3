// The text of a checked formula.
ghost use Rattle.rules.specs.Formula.{Formula};
ghost use Rattle.formula_text.specs.Task.{Leaf, FormulaTask, FormulaDone};

use crate::shape::{Shape, names_of, shape_of};
use crate::sign::{opening, sign};
use rules::LONGEST_ATOM;
use words::name::few;
use words::word::{byte, closed, places};

// An atom or a constant. A constant is taken for one with a name of no bytes, so that there is no branch.
fn leaf(s: &[u8], at: usize, out: &mut [u8], to: usize) -> usize
    requires { (f : Formula) × Leaf f × FormulaTask s.now at out.old to f }
    ensures { (f : Formula) → Leaf f → FormulaTask s.now at out.old to f → FormulaDone at out.old to f out.new result }
{
    let tag = s[at];
    let names = names_of(tag);
    let n = names * s[at + names] as usize;
    let from = at + 1 + names;
    let a = few::<LONGEST_ATOM>(s, from, n, out, to);
    places(from + n, sign(tag, out, a))
}

// A formula of any shape: a call on each of its parts. It hands back the place after the text, times 65,536, and the place after the bytes,
// since a struct would come back by way of memory.
pub fn walk(s: &[u8], at: usize, out: &mut [u8], to: usize) -> usize
    requires { (f : Formula) × FormulaTask s.now at out.old to f }
    ensures { (f : Formula) → FormulaTask s.now at out.old to f → FormulaDone at out.old to f out.new result }
{
    let tag = s[at];
    let x = at + 1;
    match shape_of(tag) {
        Shape::Leaf => leaf(&*s, at, out, to),
        Shape::Exponential => {
            let a = byte(out, to, opening(tag));
            walk(&*s, x, out, a)
        }
        Shape::Connective => {
            let a = byte(out, to, b'(');
            let l = walk(&*s, x, out, a);
            let b = sign(tag, out, l / 65536);
            let r = walk(&*s, l % 65536, out, b);
            closed(out, r, 1)
        }
    }
}
