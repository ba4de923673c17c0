// What is promised of comparisons after histories of calls. There is no code here: specs/ says what it
// is, proofs/ that it holds.
#![tactic(auto)]
