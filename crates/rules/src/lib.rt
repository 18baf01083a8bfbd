// What marking and making share: the rules for one page, the figures and tables that wait, and the white space of a page.
// Document 01, "Marking".
#![tactic(auto)]

pub mod counts; // counts.rt: what is added up page by page
pub mod rules; // rules.rt: rules 14, 16 and 17
pub mod waiting; // waiting.rt: the floats that wait at a place
