// A second demapper, written from the requirements alone, for the program `trials` to hold the first against. It looks at every point, for QAM on the
// whole grid, and at every word of a short frame; it has no formula for the nearest index or for a counter-hypothesis, and no code, definition or law of the
// demapper. What a modulation is stands in `modulations`, and label, cost and sample of its points in `points`; all searches go over tables of labels and
// costs and know no modulation. Its functions are proved safe: they end, stay inside their buffers, and no arithmetic of theirs wraps; costs, of which none
// reaches the ends of its type, stop at these.
// That what they compute is right is not proved; such a proof would make it the first demapper again.
#![tactic(auto)]

pub mod frames;
pub mod modulations;
pub mod points;
pub mod probes;
pub mod rounding;
pub mod search;
pub mod tables;
pub mod weights;
pub mod words;

use crate::modulations::Modulation;

// What a frame is set up by (REQUIREMENTS, "Frames"), but for weights: the modulation, the payload's bits, shift s and limit T, of any size; s + e counts up to 54.
// What else is made of numbers out of their ranges, which are refused, does not matter.
#[derive(Clone, Copy)]
pub struct Settings {
    pub modulation: Modulation,
    pub payload: usize,
    pub shift: usize,
    pub limit: i64,
}

// A received symbol: the modulation, the gain, the weight that its costs are multiplied by, and the sample, whose yq is 0 for PAM.
#[derive(Clone, Copy)]
pub struct Symbol {
    pub modulation: Modulation,
    pub gain: i64,
    pub weight: i64,
    pub yi: i64,
    pub yq: i64,
}

impl Symbol {
    // The same with costs as they are: those of probes.
    pub fn unweighted(self) -> Symbol {
        Symbol { weight: 1, ..self }
    }
}
