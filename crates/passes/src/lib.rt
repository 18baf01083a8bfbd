// The starts in one earlier column, weighed for every page that ends at a place of a column: by sweeps with queues, and line by line
// for the last page, which may be short. Document 01, "Making".
#![tactic(auto)]

mod bound; // bound.rt: what no start from a line on costs less than
pub mod pass; // pass.rt: the starts of one column, for all lines of a later one
