// The worked cases of document 01 and those for what they leave open, in one table that is proved to agree with the page model:
// see specs/.
#![tactic(auto)]
