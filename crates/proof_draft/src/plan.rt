// What the walk does at one rule, by the rule's tag and its count of premises. Nothing here carries the row of entries.
ghost use Rattle.std.specs.Prelude.{◌≡◌};
ghost use Rattle.rules.specs.Proof.{Proof};
ghost use Rattle.proof.specs.Place.{ProofAt};
ghost use Rattle.proof_draft.specs.Acts.{cut_act, pair_act, over_act, wrapping_act, act_of};
ghost use Rattle.proof_draft.specs.Planning.{Planned};

use draft::row::{RowKind, TRIVIAL, UNIT};
use proof::rule::look_rule;
use proof::rule_tag;

#[derive(Clone, Copy)]
pub enum Act {
    // Takes a part with which a draft begins.
    Leaf(usize),
    // Puts a row over Unit.
    Bare(RowKind),
    // Puts the name of an Axiom.
    Axiom,
    // Reads the first premise alone, after so many names are taken, and puts a row over it, or none.
    First { over: Option<RowKind>, names: usize },
    // Pairs two premises.
    Pair,
    // Joins the two of a Cut, which takes its own name before the producer.
    Cut,
}

// What is done; then what a look at the rule told.
#[derive(Clone, Copy)]
pub struct Plan {
    pub act: Act,
    pub linear: usize,
    pub premises: usize,
    pub first: usize,
}

// The rule at `at`.
pub fn plan_at(s: &[u8], at: usize) -> Plan
    requires { (p : Proof) × ProofAt s.now at p }
    ensures { Planned s.now at result }
{
    let rule = look_rule(s, at);
    Plan {
        act: act_of(rule.tag, rule.premises),
        linear: rule.linear,
        premises: rule.premises,
        first: rule.first,
    }
}

// By the tag; the rules that are not named only hand on their first premise.
fn act_of(tag: u8, premises: usize) -> Act
    ensures { result ≡ act_of tag premises }
{
    match tag {
        rule_tag::AXIOM => Act::Axiom,
        rule_tag::CUT => cut_act(premises),
        rule_tag::ONE_INTRO => Act::Leaf(UNIT),
        rule_tag::TENSOR_INTRO => pair_act(UNIT, premises),
        rule_tag::TOP_INTRO => Act::Leaf(TRIVIAL),
        rule_tag::WITH_INTRO => pair_act(TRIVIAL, premises),
        rule_tag::PLUS_INTRO_LEFT => wrapping_act(RowKind::Inl, premises),
        rule_tag::PLUS_INTRO_RIGHT => wrapping_act(RowKind::Inr, premises),
        rule_tag::OF_COURSE_INTRO => wrapping_act(RowKind::Promote, premises),
        rule_tag::WEAKENING => over_act(Some(RowKind::Discard), 0, premises),
        rule_tag::CONTRACTION => over_act(Some(RowKind::Copy), 3, premises),
        rule_tag::DERELICTION => wrapping_act(RowKind::Derelict, premises),
        _ => over_act(None, 0, premises),
    }
}

// Without two premises a Cut is Unit.
fn cut_act(premises: usize) -> Act
    ensures { result ≡ cut_act premises }
{
    match premises {
        2 => Act::Cut,
        _ => Act::Leaf(UNIT),
    }
}

// Tensor and With.
fn pair_act(part: usize, premises: usize) -> Act
    ensures { result ≡ pair_act part premises }
{
    match premises {
        1 => Act::First {
            over: None,
            names: 0,
        },
        2 => Act::Pair,
        _ => Act::Leaf(part),
    }
}

// A rule that wraps its first premise, or Unit.
fn wrapping_act(kind: RowKind, premises: usize) -> Act
    ensures { result ≡ wrapping_act kind premises }
{
    match premises {
        0 => Act::Bare(kind),
        _ => Act::First {
            over: Some(kind),
            names: 0,
        },
    }
}

// A rule that reads its first premise, and without one is Unit.
fn over_act(over: Option<RowKind>, names: usize, premises: usize) -> Act
    ensures { result ≡ over_act over names premises }
{
    match premises {
        0 => Act::Leaf(UNIT),
        _ => Act::First { over, names },
    }
}
