// From a checked proof to a draft: cut entries, the name of an Axiom, what a rule does, the walk.
#![tactic(auto)]

pub mod axiom;
pub mod entry;
pub mod own;
pub mod plan;
pub mod put;
pub mod walk;
