// A checked term where it stands: the tags by name, one look at a node, what binders cover, where parts end; the call child.
#![tactic(auto)]

pub mod binder;
pub mod child;
pub mod node;
pub mod span;
pub mod tag;
