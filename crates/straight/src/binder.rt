// What a straight term asks of a node by itself: its tag, and of each binder that its name stands at no other and is used once, inside what it covers.
ghost use Rattle.std.specs.Prelude.{◌≡◌};
ghost use Rattle.rules.specs.Name.{Name};
ghost use Rattle.rules.specs.Term.{Term};
ghost use Rattle.rules.specs.Straight.{◌over◌, once as once_in};
ghost use Rattle.straight.specs.Node.{plain_tag};
ghost use Rattle.straight.specs.Place.{Binds};

use crate::uses::uses_in;
use term::{node, tag};

// Whether a node of this tag may stand in a straight term.
pub fn plain(tag: usize) -> bool
    ensures { result ≡ plain_tag tag }
{
    tag != tag::CASE as usize
        && tag != tag::FST as usize
        && tag != tag::SND as usize
        && tag != tag::DISCARD as usize
        && tag != tag::COPY as usize
}

// Whether the name at `name` stands at this one binder only and is used exactly once, in the term at `covers`.
pub fn once(s: &[u8], name: usize, covers: usize) -> bool
    requires { (w : Term) × (x : Name) × (e : Term) × Binds s.now name covers w x e }
    ensures { (w : Term) → (x : Name) → (e : Term) → Binds s.now name covers w x e → result ≡ once_in w (x over e) }
{
    let sought = node::name(s, name);
    let all = uses_in(s, 0, sought);
    let single = all.stands == 1 && all.uses == 1;
    single && uses_in(s, covers, sought).uses == 1
}
