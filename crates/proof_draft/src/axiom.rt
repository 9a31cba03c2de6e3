// The name that an Axiom takes: that of the oldest cut entry that is the opposite of one of its atoms, or an atom's own.
ghost use Rattle.std.specs.Prelude.{◌≡◌, ◌+◌, ◌<◌, length, get_or, IfSome};
ghost use Rattle.rules.specs.Name.{Name};
ghost use Rattle.rules.specs.Formula.{Formula, Sign, atom as atom_of};
ghost use Rattle.rules.specs.Extraction.{cuts_atom};
ghost use Rattle.draft.specs.Made.{most_number};
ghost use Rattle.proof.specs.Place.{FormulaAt};
ghost use Rattle.proof_draft.specs.Searching.{name_said, Given, Gives, Listed, Takes};

use crate::entry::CutEntry;
use proof::rule::skip_formulas;
use reader::formula_tag::{ATOM, NEG_ATOM};
use term::node;

// A name, told by its stem and its number.
#[derive(Clone, Copy, Debug, PartialEq, Eq)]
pub struct Label {
    pub stem: usize,
    pub number: usize,
}

// Whether the formula at `place` is the atom at `atom`, of the other sign.
fn opposed(s: &[u8], atom: usize, place: usize) -> bool
    requires { (k : Sign) × (a : Name) × (f : Formula) × FormulaAt s.now atom (atom_of k a) × FormulaAt s.now place f }
    ensures { (k : Sign) → (a : Name) → (f : Formula) → FormulaAt s.now atom (atom_of k a) → FormulaAt s.now place f → result ≡ cuts_atom k a f }
{
    let own = s[atom] as usize;
    let other = s[place] as usize;
    if own + other != 3 {
        return false;
    }
    let name = atom + 1;
    let len = s[name] as usize;
    let from = name + 1;
    let end = from + len;
    node::same_name(s, place + 1, &s[from..end])
}

// The name that the formula at `at` gives by itself: an atom that of the oldest entry that is its opposite; with none, an Atom is its own name.
fn name_given(s: &[u8], at: usize, entries: &[CutEntry]) -> Option<Label>
    requires { Given s.now entries.now (length entries.now) at }
    ensures { Gives s.now entries.now (length entries.now) at (name_said s.now result) × IfSome result (λ q. q.number < most_number) }
{
    let tag = s[at];
    // the two tags of atoms come first
    if NEG_ATOM < tag {
        return None;
    }
    // Kept: by index, so that the edit newest_first turns the order round and nothing else.
    for i in 0..entries.len() {
        let entry = entries[i];
        if opposed(s, at, entry.place) {
            return Some(Label {
                stem: entry.place + 1,
                number: entry.counter as usize + 1,
            });
        }
    }
    if tag == ATOM {
        return Some(Label {
            stem: at + 1,
            number: 0,
        });
    }
    None
}

// The name that the formulas counted at `linear` take: that of the first which gives one.
pub fn axiom_name(s: &[u8], linear: usize, entries: &[CutEntry]) -> Option<Label>
    requires { (linear < length s.now) × Listed s.now entries.now (length entries.now) (linear + 1) (get_or s.now linear 0) }
    ensures { Takes s.now entries.now (length entries.now) (linear + 1) (get_or s.now linear 0) (name_said s.now result) × IfSome result (λ q. q.number < most_number) }
{
    let many = s[linear] as usize;
    let mut at = linear + 1;
    for passed in 0..many {
        let name = name_given(s, at, entries);
        if name.is_some() {
            return name;
        }
        at = skip_formulas(s, at, 1);
    }
    None
}
