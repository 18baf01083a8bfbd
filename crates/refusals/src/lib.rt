// What each refusal of the reader says of the bytes alone: see specs/.
#![tactic(auto)]
