// The contraction of a redex where it stands: what it becomes is written by itself, and nothing around it is touched.
#![tactic(auto)]

ghost use Rattle.std.proofs.Math.Option.{Option};
ghost use Rattle.rules.specs.declared.Rule.{Rule};
ghost use Rattle.rules.specs.Term.{Term};
ghost use Rattle.contraction.specs.Contracted.{Contracts, Row};
ghost use Rattle.contraction.specs.Contracting.{Contracting};

use part::{Contraction, Site};
use rules::MOST_NODES;
use substitution::put::Size;
use term::tag;

mod app;
mod case;
pub mod part;
mod redexes;

// Contracts the redex in s at `at`, by its tag. It is a part of a whole of so many nodes and bytes.
// What is written stands at the start of `made`; `places` is the row in which the places of a name are kept.
pub fn contract(
    s: &[u8],
    at: usize,
    nodes: usize,
    length: usize,
    places: &mut [u16; MOST_NODES],
    made: &mut [u8],
) -> Option<Contraction>
    requires { (t : Term) × (r : Rule) × (h : Option Term) × (u : Term) × Contracting s.now at nodes length places.old made.old t r h u }
    ensures contracts { (t : Term) → (r : Rule) → (h : Option Term) → (u : Term) → Contracting s.now at nodes length places.old made.old t r h u → Contracts s.now at nodes length t r h u made.new result }
    ensures row { Row places.new }
{
    let whole = Size {
        nodes,
        bytes: length,
    };
    let site = Site {
        bytes: s,
        at,
        whole,
    };
    match s[at] {
        tag::LET_PAIR => redexes::let_pair(site, places, made),
        tag::APP => app::apply(site, places, made),
        tag::CASE => case::branch(site, places, made),
        tag::FST => redexes::first(site, made),
        tag::SND => redexes::second(site),
        tag::DERELICT => redexes::derelict(site),
        tag::COPY => redexes::copy(site, places, made),
        _ => redexes::discard(site),
    }
}
