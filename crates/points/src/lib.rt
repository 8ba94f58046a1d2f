// Labels, counter-hypotheses, levels, PSK points and costs of the constellations. What they mean stands in the specs/ of the crate constellation.
#![tactic(auto)]

pub mod circle;
pub mod counter;
pub mod label;
pub mod line;
