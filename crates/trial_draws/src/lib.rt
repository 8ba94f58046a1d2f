// The modulations one after the other, what the program trials draws at random of each, headers, gains and samples, and counts of what was drawn.
#![tactic(auto)]

pub mod draws;
pub mod schemes;
pub mod tally;
