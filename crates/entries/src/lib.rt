// The entry of a place: the least cost of a page that ends there, and its start. Document 01, "Making".
#![tactic(auto)]

pub mod side; // side.rt: the sides of a place filled
