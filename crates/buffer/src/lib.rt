// Bytes that are lent: runs copied, compared, cleared; rooms long enough; zeros left.
#![tactic(auto)]

pub mod room;
pub mod run;
