// What proofs by hand share. There is no code here: the laws are in specs/.
#![tactic(auto)]
