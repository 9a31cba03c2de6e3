// A term in rows: its names, its size, its bytes.
#![tactic(auto)]

pub mod head;
pub mod name;
pub mod row;
pub mod size;
pub mod write;
