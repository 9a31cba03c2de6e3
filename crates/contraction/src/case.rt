// Case of Inl or Inr, where it stands: that branch, with the injected part for the branch's name.
ghost use Rattle.std.specs.Prelude.{Bool, if◌then◌else◌};
ghost use Rattle.std.proofs.Math.Option.{none};
ghost use Rattle.rules.specs.Name.{Name};
ghost use Rattle.rules.specs.Term.{Term, one, branch as a_branch};
ghost use Rattle.rules.specs.declared.Rule.TheVariants.{Case};
ghost use Rattle.rules.specs.Substitution.{subst};
ghost use Rattle.redex.specs.Side.{side};
ghost use Rattle.substitution.specs.Put.{Room};
ghost use Rattle.contraction.specs.Contracted.{RedexAt, ContractsAt, Row};

use crate::part::{Contraction, Part, Site, find_in};
use rules::{MOST_NODES, Rule};
use term::span::{span, span_names};
use term::tag::INL;

// The branch of the injected side, with the injected part for its name. The other branch is measured: its nodes go.
pub fn branch(site: Site, places: &mut [u16; MOST_NODES], made: &mut [u8]) -> Option<Contraction>
    requires redex { (x : Name) × (y : Name) × (d : Bool) × (v : Term) × (l : Term) × (r : Term) × RedexAt site (a_branch x y (one (side d) v) l r) }
    requires row { Row places.old × Room made.old }
    ensures contracts { (x : Name) → (y : Name) → (d : Bool) → (v : Term) → (l : Term) → (r : Term) → RedexAt site.entry (a_branch x y (one (side d) v) l r) → ContractsAt site.entry (a_branch x y (one (side d) v) l r) Case none (if d then subst x v l else subst y v r) made.new result }
    ensures row_2 { Row places.new }
{
    let s = site.bytes;
    let names = span_names(s, site.at + 1);
    let middle = names.second;
    let scrutinee = names.end;
    let from = scrutinee + 1;
    let value = span(s, from);
    let left = value.next;
    let part = Part {
        from,
        extent: value,
    };
    let rest = site.whole.nodes - 2 - value.nodes;
    if s[scrutinee] == INL {
        let body = find_in(s, left, &s[site.at + 2..middle], places);
        let other = span(s, body.end);
        let end = other.next;
        let kept = rest - other.nodes;
        return site.put_here(Rule::Case, end, body, part, kept, places, made);
    }
    let other = span(s, left);
    let body = find_in(s, other.next, &s[middle + 1..scrutinee], places);
    let end = body.end;
    let kept = rest - other.nodes;
    site.put_here(Rule::Case, end, body, part, kept, places, made)
}
