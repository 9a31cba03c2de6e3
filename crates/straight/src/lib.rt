// Whether a term is straight (demand 3).
#![tactic(auto)]

ghost use Rattle.std.specs.Prelude.{◌≡◌};
ghost use Rattle.rules.specs.Limits.{limits};
ghost use Rattle.rules.specs.Name.{Name};
ghost use Rattle.rules.specs.Term.{Term, abs, both, let_a_pair};
ghost use Rattle.rules.specs.Straight.{straight};
ghost use Rattle.rules.specs.Calls.{is_straight_call};
ghost use Rattle.term.specs.Place.{TermAt};
ghost use Rattle.straight.specs.Node.{passes_in};
ghost use Rattle.straight.specs.Place.{Within};

use binder::{once, plain};
use rules::Refusal;
use term::{node, tag};

pub mod binder;
pub mod uses;

// The binder of an Abs.
fn abs_passes(s: &[u8], at: usize) -> bool
    requires { (w : Term) × (x : Name) × (e : Term) × Within s.now at w (abs x e) }
    ensures { (w : Term) → (x : Name) → (e : Term) → Within s.now at w (abs x e) → result ≡ passes_in w (abs x e) }
{
    let row = node::parts_at(s, at);
    once(s, at + 1, row.start)
}

// The two binders of a LetPair, which cover its body.
fn let_passes(s: &[u8], at: usize) -> bool
    requires { (w : Term) × (x : Name) × (y : Name) × (p : Term) × (e : Term) × Within s.now at w (both let_a_pair x y p e) }
    ensures { (w : Term) → (x : Name) → (y : Name) → (p : Term) → (e : Term) → Within s.now at w (both let_a_pair x y p e) → result ≡ passes_in w (both let_a_pair x y p e) }
{
    let row = node::parts_at(s, at);
    let body = node::skip(s, row.start, 1);
    let second = node::after_names(s, at + 1, 1);
    once(s, at + 1, body) && once(s, second, body)
}

// A node by itself, without its parts.
fn passes(s: &[u8], at: usize) -> bool
    requires { (w : Term) × (t : Term) × Within s.now at w t }
    ensures { (w : Term) → (t : Term) → Within s.now at w t → result ≡ passes_in w t }
{
    match s[at] {
        tag::ABS => abs_passes(s, at),
        tag::LET_PAIR => let_passes(s, at),
        other => plain(other as usize),
    }
}

// Every node of the term.
fn all_pass(s: &[u8]) -> bool
    requires { (w : Term) × TermAt s.now 0 w }
    ensures { (w : Term) → TermAt s.now 0 w → result ≡ straight w }
{
    let mut i = 0;
    let mut left = 1;
    while 0 < left {
        if !passes(s, i) {
            return false;
        }
        let row = node::parts_at(s, i);
        left = left - 1 + row.parts;
        i = row.start;
    }
    true
}

pub fn is_straight(term: &[u8]) -> Result<bool, Refusal>
    ensures { result ≡ is_straight_call limits term.now }
{
    reader::check_term(term)?;
    Ok(all_pass(term))
}
