// What the demands come to in a log. There is no code here: specs/LogDemands.antt has the
// statements, proofs/ their proofs.
#![tactic(auto)]
