// There is no code here: the demands for files that pay runs touch are definitions (specs/) and
// theorems (proofs/) over the contracts of `pay_runs` and `register`.
#![tactic(auto)]
