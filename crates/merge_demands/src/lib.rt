// What a merge says and leaves, of any bytes and after histories of calls. There is no code here: specs/ says
// what is promised, proofs/ that it holds.
#![tactic(auto)]
