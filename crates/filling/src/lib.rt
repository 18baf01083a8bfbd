// The work area filled with the least cost of every place, and the start of the page that ends there. Document 01, "Making".
#![tactic(auto)]

pub mod fill; // fill.rt: all columns, each with its queues
