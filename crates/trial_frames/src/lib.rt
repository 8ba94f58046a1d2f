// Frames of the program trials, random ones and any other: read by the frame call, held against the second demapper, and printed where an entry is wrong.
#![tactic(auto)]

pub mod answers;
pub mod calls;
pub mod judge;
pub mod random;
pub mod words;
