// What is reached: which lines of a column, and which columns at all. A place that was never reached offers no start.
#![tactic(auto)]

pub mod look; // look.rt: the first and the last line of a column that are reached
pub mod recall; // recall.rt: which columns are reached at all
pub mod ring; // ring.rt: what is known of the columns last found to be reached
