// A walk over the nodes of a term from a place on: whether any of them is a redex.
ghost use Rattle.std.specs.Prelude.{◌≡◌, true};
ghost use Rattle.rules.specs.Term.{Term, encode};
ghost use Rattle.rules.specs.Step.{step as step_of, is_normal_term};
ghost use Rattle.redex.specs.Swept.{Swept};

use crate::tags::reduces;
use term::node;

// Whether no node is a redex, where none is before `from`. A node's first part follows its names, so each tag is held against the one
// before it, and the first against 0, which is no tag; what is no tag, or has no parts, wants nothing of what follows it.
pub fn calm(s: &[u8], from: usize) -> bool
    requires s_value { (t : Term) × (s.now ≡ encode t) }
    requires swept { Swept s.now from 0 }
    ensures { (t : Term) → s.now ≡ encode t → result ≡ true → is_normal_term (step_of t) ≡ true }
{
    let mut i = from;
    let mut last = 0;
    while i < s.len() {
        let tag = s[i] as usize;
        if reduces(last, tag) {
            return false;
        }
        i = node::after_names(s, i + 1, node::names_of(tag));
        last = tag;
    }
    true
}
