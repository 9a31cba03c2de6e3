// The answers of the Rust as published, held against the rules: specs/RustCases.antt, which host/cases prints.
#![tactic(auto)]
