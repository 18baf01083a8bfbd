// The page model: pages, spreads and the answers of making and marking. What they mean is in specs/.
#![tactic(auto)]

pub mod answer;
pub mod page;
