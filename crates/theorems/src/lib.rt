// The theorems behind least turns, over the page model: mathematics alone, no code. See specs/.
#![tactic(auto)]
