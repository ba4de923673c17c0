// What the users asked for, as theorems about histories of calls. There is no code here:
// specs/Demands.antt has the statements, proofs/ their proofs.
#![tactic(auto)]
