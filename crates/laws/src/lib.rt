// What follows from the rules alone. Theorems, in specs/ and proofs/; there is no code.
#![tactic(auto)]
