// App of Abs, where it stands: the argument goes into the body, or stays where it is.
ghost use Rattle.std.specs.Prelude.{◌≡◌, List, ℕ, ◌≤◌, length};
ghost use Rattle.std.proofs.Math.Option.{none};
ghost use Rattle.rules.specs.Limits.{limits};
ghost use Rattle.rules.specs.Name.{Name};
ghost use Rattle.rules.specs.Term.{Term, two, abs, app};
ghost use Rattle.rules.specs.declared.Rule.TheVariants.{App};
ghost use Rattle.rules.specs.Substitution.{subst};
ghost use Rattle.substitution.specs.Places.{Row};
ghost use Rattle.substitution.specs.Put.{Room};
ghost use Rattle.contraction.specs.Stays.{one_at_end};
ghost use Rattle.contraction.specs.Contracted.{RedexAt, ContractsAt};

use crate::part::{Contraction, Part, Site, find_in};
use buffer::run;
use rules::{MOST_NODES, Rule};
use term::node;
use term::span::span;

// Whether there is one place, and that is the last `gap` bytes of a body so long.
fn ends_body(places: &[u16], gap: usize, long: usize) -> bool
    requires { gap ≤ limits.bytes }
    ensures { result ≡ one_at_end places.now gap long }
{
    match places {
        [place] => *place as usize + gap == long,
        _ => false,
    }
}

// App of Abs: argument for x. If x is free in one place, and the body ends there, the argument stays where it is.
pub fn apply(site: Site, places: &mut [u16; MOST_NODES], made: &mut [u8]) -> Option<Contraction>
    requires redex { (x : Name) × (e : Term) × (a : Term) × RedexAt site (two app (abs x e) a) }
    requires row { Row places.old × Room made.old }
    ensures contracts { (x : Name) → (e : Term) → (a : Term) → RedexAt site.entry (two app (abs x e) a) → ContractsAt site.entry (two app (abs x e) a) App none (subst x a e) made.new result }
    ensures row_2 { Row places.new }
{
    let s = site.bytes;
    let nodes = site.whole.nodes;
    let from = node::after_names(s, site.at + 2, 1);
    let body = find_in(s, from, &s[site.at + 3..from], places);
    let arg = body.end;
    let gap = body.kept.gap;
    let kept = &places[..body.kept.count];
    if ends_body(kept, gap, arg - from) {
        let size = run::copy(s, from, arg - gap, made, 0);
        return Some(Contraction {
            rule: Rule::App,
            size,
            end: arg,
            nodes: nodes - 3,
        });
    }
    let value = span(s, arg);
    let part = Part {
        from: arg,
        extent: value,
    };
    let rest = nodes - 2 - value.nodes;
    site.put_here(Rule::App, value.next, body, part, rest, places, made)
}
