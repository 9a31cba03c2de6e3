// How far a bounded reduction has come: what a step adds, and what is told where it ends.
ghost use Rattle.std.specs.Prelude.{◌≡◌, ◌<◌, Ok};
ghost use Rattle.rules.specs.Reduction.{zero_counts, plus as plus_of};
ghost use Rattle.reduction.specs.Counted.{total};
ghost use Rattle.reduction.specs.Told.{stopped_at, onward};

use crate::Reduction;
use crate::place::Place;
use contraction::part::Contraction;
use rules::{Counts, Rule};

// Where the search stands, the nodes of the whole, the steps taken and one count for each rule.
#[derive(Clone, Copy)]
pub struct Course {
    pub at: Place,
    pub nodes: usize,
    pub steps: u32,
    pub counts: Counts,
}

// A step outgrew the limits: the steps done, and the length of the last term that fitted.
#[derive(Clone, Copy)]
pub struct Outgrown {
    pub steps: u32,
    pub length: usize,
}

pub fn no_counts() -> Counts
    ensures { result ≡ zero_counts }
{
    Counts {
        app: 0,
        lets: 0,
        case: 0,
        fst: 0,
        snd: 0,
        derelict: 0,
        copy: 0,
        discard: 0,
    }
}

// One more of a rule.
fn plus(rule: Rule, mut counts: Counts) -> Counts
    requires { total counts < 4294967295 }
    ensures { result ≡ plus_of rule counts }
{
    match rule {
        Rule::App => counts.app += 1,
        Rule::Let => counts.lets += 1,
        Rule::Case => counts.case += 1,
        Rule::Fst => counts.fst += 1,
        Rule::Snd => counts.snd += 1,
        Rule::Derelict => counts.derelict += 1,
        Rule::Copy => counts.copy += 1,
        Rule::Discard => counts.discard += 1,
    }
    counts
}

impl Course {
    // A contraction was made, and the search stands at `next`.
    pub fn one_more(self, contraction: Contraction, next: Place) -> Course
        requires { (total self.counts ≡ self.steps) × (self.steps < 4294967295) }
        ensures { result ≡ onward self contraction next }
    {
        let counts = self.counts;
        let steps = self.steps + 1;
        let rule = contraction.rule;
        Course {
            at: next,
            nodes: contraction.nodes,
            steps,
            counts: plus(rule, counts),
        }
    }

    // It ends here: at the limit, or because no step remains.
    pub fn stopped(self, normal: bool, length: usize) -> Reduction
        ensures { Ok result ≡ stopped_at self.steps self.counts normal length }
    {
        Reduction {
            steps: self.steps,
            counts: self.counts,
            normal,
            length,
        }
    }
}
