// The three demands, as theorems about the contracts of making and marking: see specs/.
#![tactic(auto)]
