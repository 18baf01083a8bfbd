// The best start of a page that ends at a place, for all places of a column at once: the passes over all columns before it.
// Document 01, "Making".
#![tactic(auto)]

pub mod sweep; // sweep.rt: the best starts in earlier columns, for all lines of a column
