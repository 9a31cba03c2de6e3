// One rule of a checked proof, and its formulas: where their parts start, and the place after them. Their bytes are known to be legal.
ghost use Rattle.std.specs.Prelude.{◌≡◌, List, ◌+◌, ◌<◌, length};
ghost use Rattle.rules.specs.Formula.{Formula};
ghost use Rattle.rules.specs.Proof.{Proof};
ghost use Rattle.laws.specs.reading.WrittenProof.{carried};
ghost use Rattle.proof.specs.Place.{FormulaAt, FormulasAt, ProofAt, ProofsAt, formulas_long, proofs_long};
ghost use Rattle.proof.specs.Shape.{parts_after, Spread, rule_of, Sees};

use crate::rule_tag::{CUT, FOCUS_NEGATIVE, FOCUS_POSITIVE};
use reader::formula_tag::{LOLLI, NEG_ATOM, OF_COURSE, PAR, PLUS, TENSOR, WHY_NOT, WITH};
use term::node::Row;

// How many parts follow each tag of a formula: two bits a tag.
// Kept: a number, as those of a term's tags (term::node), where a match on the tag makes a walk take twice as long.
const PARTS: usize = 1 << (OF_COURSE * 2)
    | 1 << (WHY_NOT * 2)
    | 2 << (TENSOR * 2)
    | 2 << (PAR * 2)
    | 2 << (WITH * 2)
    | 2 << (PLUS * 2)
    | 2 << (LOLLI * 2);

fn formula_parts(tag: usize) -> usize
    requires { tag < 32 }
    ensures { result ≡ parts_after tag }
{
    (PARTS >> (tag * 2)) % 4
}

// The parts of a formula: where they start, and how many there are.
fn look_formula(s: &[u8], at: usize) -> Row
    requires { (f : Formula) × FormulaAt s.now at f }
    ensures { (f : Formula) → FormulaAt s.now at f → Spread at f result }
{
    let tag = s[at];
    let past = at + 1;
    // the two tags of atoms come first
    if tag <= NEG_ATOM {
        let len = s[past] as usize;
        return Row {
            start: past + 1 + len,
            parts: 0,
        };
    }
    Row {
        start: past,
        parts: formula_parts(tag as usize),
    }
}

// The place after n formulas. A node's parts take its place in the row, so that no range counts the turns.
pub fn skip_formulas(s: &[u8], at: usize, n: usize) -> usize
    requires { (fs : List Formula) × FormulasAt s.now at n fs }
    ensures { (fs : List Formula) → FormulasAt s.now at n fs → result ≡ at + formulas_long fs }
{
    let mut i = at;
    let mut left = n;
    while 0 < left {
        let f = look_formula(s, i);
        left = left - 1 + f.parts;
        i = f.start;
    }
    i
}

// The place after a rule's tag and what it carries.
fn past_own(s: &[u8], at: usize) -> usize
    requires { (p : Proof) × ProofAt s.now at p }
    ensures { (p : Proof) → ProofAt s.now at p → result ≡ at + 1 + length (carried (rule_of p)) }
{
    let tag = s[at];
    let own = at + 1;
    // Kept: tests and no match, with which a walk over a checked proof takes half as long again.
    if tag == CUT {
        return skip_formulas(s, own, 1);
    }
    if tag == FOCUS_POSITIVE || tag == FOCUS_NEGATIVE {
        return own + 2;
    }
    own
}

// A rule: its tag, where the formulas of `linear` are counted, how many premises there are, and where the first stands.
#[derive(Clone, Copy, Debug, PartialEq, Eq)]
pub struct Looked {
    pub tag: u8,
    pub linear: usize,
    pub premises: usize,
    pub first: usize,
}

pub fn look_rule(s: &[u8], at: usize) -> Looked
    requires { (p : Proof) × ProofAt s.now at p }
    ensures { (p : Proof) → ProofAt s.now at p → Sees at p result }
{
    let tag = s[at];
    let linear = past_own(s, at);
    let many = s[linear] as usize;
    let count = skip_formulas(s, linear + 1, many);
    let premises = s[count] as usize;
    Looked {
        tag,
        linear,
        premises,
        first: count + 1,
    }
}

// The place after n proofs.
// Kept: a twin of the loop above, since a trait or a closure for both would have to say what a look tells of any list of items, which is longer than the loop.
pub fn skip_proofs(s: &[u8], at: usize, n: usize) -> usize
    requires { (ps : List Proof) × ProofsAt s.now at n ps }
    ensures { (ps : List Proof) → ProofsAt s.now at n ps → result ≡ at + proofs_long ps }
{
    let mut i = at;
    let mut left = n;
    while 0 < left {
        let rule = look_rule(s, i);
        left = left - 1 + rule.premises;
        i = rule.first;
    }
    i
}
