// Where a term steps: which nodes are redexes, the first one, a reading that tells that there is none.
#![tactic(auto)]

pub mod ahead;
pub mod calm;
pub mod find;
pub mod read;
pub mod tags;
