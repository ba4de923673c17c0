// Two record sets: what differs between them. There is no code here: specs/ says what it is, proofs/
// what follows.
#![tactic(auto)]
