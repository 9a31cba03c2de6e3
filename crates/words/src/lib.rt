// What is printed: words, names, digits.
#![tactic(auto)]

pub mod digit;
pub mod name;
pub mod word;
