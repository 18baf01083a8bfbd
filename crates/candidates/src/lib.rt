// The places that a page may start from: what a search asks of a galley and its work area, and the better of two starts. Document 01,
// "Making".
#![tactic(auto)]

pub mod choice; // choice.rt: the better of two starts
pub mod fronts; // fronts.rt: the best start of a window
pub mod last; // last.rt: the best line of a column for the last page
pub mod read; // read.rt: sides, the full place, and what a page must keep to
