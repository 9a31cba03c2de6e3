// What programs read and print: the input, lines, the run of patchrun.
#![tactic(auto)]

pub mod input;
pub mod line;
pub mod run;
