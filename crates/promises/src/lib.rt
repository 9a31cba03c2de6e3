// The promises of the public calls, seen together: proofs/ has that each contract leaves one answer, and that no wrong
// version that document 01 names meets its contract (specs/ has those versions). There is no code here.
#![tactic(auto)]
