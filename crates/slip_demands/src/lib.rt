// What the demands come to for a program that calls by slips. There is no code here: specs/ has the
// statements, proofs/ their proofs.
#![tactic(auto)]
