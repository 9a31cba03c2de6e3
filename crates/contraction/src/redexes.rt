// Six of the rules, each at the place where its redex stands. What a rule leaves at the end of its redex is not touched.
ghost use Rattle.std.proofs.Math.Option.{none, some};
ghost use Rattle.std.specs.Prelude.{ℕ};
ghost use Rattle.rules.specs.Basic.{Bytes};
ghost use Rattle.rules.specs.Name.{Name};
ghost use Rattle.rules.specs.Term.{Term, one, two, both as two_named, fst, snd, promote, derelict as a_derelict, pair, discard as a_discard, let_a_pair, copy as a_copy};
ghost use Rattle.rules.specs.declared.Rule.TheVariants.{Let, Fst, Snd, Derelict, Copy, Discard};
ghost use Rattle.rules.specs.Substitution.{subst};
ghost use Rattle.substitution.specs.Put.{Room};
ghost use Rattle.contraction.specs.Contracted.{RedexAt, ContractsAt, Row};

use crate::part::{Contraction, Part, Site};
use buffer::run;
use rules::{MOST_NODES, Rule};
use term::span::{span, span_names, span_two};

// LetPair of Pair: a for x, then b for y in all that results.
pub fn let_pair(site: Site, places: &mut [u16; MOST_NODES], made: &mut [u8]) -> Option<Contraction>
    requires redex { (x : Name) × (y : Name) × (a : Term) × (b : Term) × (e : Term) × RedexAt site (two_named let_a_pair x y (two pair a b) e) }
    requires row { Row places.old × Room made.old }
    ensures contracts { (x : Name) → (y : Name) → (a : Term) → (b : Term) → (e : Term) → RedexAt site.entry (two_named let_a_pair x y (two pair a b) e) → ContractsAt site.entry (two_named let_a_pair x y (two pair a b) e) Let (some (subst x a e)) (subst y b (subst x a e)) made.new result }
    ensures row_2 { Row places.new }
{
    let s = site.bytes;
    let names = span_names(s, site.at + 1);
    let from = names.end + 1;
    let first = span(s, from);
    let second = span(s, first.next);
    let a = Part {
        from,
        extent: first,
    };
    let b = Part {
        from: first.next,
        extent: second,
    };
    let rest = site.whole.nodes - 2 - first.nodes - second.nodes;
    site.both(Rule::Let, names, a, b, rest, places, made)
}

// Fst of Pair.
pub fn first(site: Site, made: &mut [u8]) -> Option<Contraction>
    requires redex { (a : Term) × (b : Term) × RedexAt site (one fst (two pair a b)) }
    requires room { Room made.old }
    ensures { (a : Term) → (b : Term) → RedexAt site.entry (one fst (two pair a b)) → ContractsAt site.entry (one fst (two pair a b)) Fst none a made.new result }
{
    let s = site.bytes;
    let a = site.at + 2;
    let row = span_two(s, a);
    let size = run::copy(s, a, row.second, made, 0);
    Some(Contraction {
        rule: Rule::Fst,
        size,
        end: row.end,
        nodes: site.whole.nodes - 2 - row.b,
    })
}

// Snd of Pair.
// Kept: beside `discard`, another rule: what is the same is a call and the struct that it fills.
pub fn second(site: Site) -> Option<Contraction>
    requires { (a : Term) × (b : Term) × RedexAt site (one snd (two pair a b)) }
    ensures { (a : Term) → (b : Term) → RedexAt site.entry (one snd (two pair a b)) → (made : Bytes) → ContractsAt site.entry (one snd (two pair a b)) Snd none b made result }
{
    let gone = span(site.bytes, site.at + 2);
    Some(Contraction {
        rule: Rule::Snd,
        size: 0,
        end: gone.next,
        nodes: site.whole.nodes - 2 - gone.nodes,
    })
}

// Derelict of Promote.
pub fn derelict(site: Site) -> Option<Contraction>
    requires { (v : Term) × RedexAt site (one a_derelict (one promote v)) }
    ensures { (v : Term) → RedexAt site.entry (one a_derelict (one promote v)) → (made : Bytes) → ContractsAt site.entry (one a_derelict (one promote v)) Derelict none v made result }
{
    Some(Contraction {
        rule: Rule::Derelict,
        size: 0,
        end: site.at + 2,
        nodes: site.whole.nodes - 2,
    })
}

// Copy of Promote: the whole Promote for x, then for y.
pub fn copy(site: Site, places: &mut [u16; MOST_NODES], made: &mut [u8]) -> Option<Contraction>
    requires redex { (x : Name) × (y : Name) × (v : Term) × (e : Term) × RedexAt site (two_named a_copy x y (one promote v) e) }
    requires row { Row places.old × Room made.old }
    ensures contracts { (x : Name) → (y : Name) → (v : Term) → (e : Term) → RedexAt site.entry (two_named a_copy x y (one promote v) e) → ContractsAt site.entry (two_named a_copy x y (one promote v) e) Copy (some (subst x (one promote v) e)) (subst y (one promote v) (subst x (one promote v) e)) made.new result }
    ensures row_2 { Row places.new }
{
    let s = site.bytes;
    let names = span_names(s, site.at + 1);
    let from = names.end;
    let source = span(s, from);
    let part = Part {
        from,
        extent: source,
    };
    let rest = site.whole.nodes - 1 - source.nodes;
    site.both(Rule::Copy, names, part, part, rest, places, made)
}

// Discard of Promote: body.
pub fn discard(site: Site) -> Option<Contraction>
    requires { (v : Term) × (e : Term) × RedexAt site (two a_discard (one promote v) e) }
    ensures { (v : Term) → (e : Term) → RedexAt site.entry (two a_discard (one promote v) e) → (made : Bytes) → ContractsAt site.entry (two a_discard (one promote v) e) Discard none e made result }
{
    let gone = span(site.bytes, site.at + 1);
    Some(Contraction {
        rule: Rule::Discard,
        size: 0,
        end: gone.next,
        nodes: site.whole.nodes - 1 - gone.nodes,
    })
}
