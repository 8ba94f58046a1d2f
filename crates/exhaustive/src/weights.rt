// Weights (REQUIREMENTS, "Weights for each carrier"): one for all symbols of a frame, or one for each, as its kind number says. A symbol's cost is multiplied by
// its weight before anything is summed.
ghost use Rattle.std.specs.Prelude.{◌≤◌};

// How many weights a frame has.
#[derive(Clone, Copy, PartialEq, Eq)]
pub enum Weighting {
    OneForAll,
    OneForEach,
}

// What is added to the number of a kind where each symbol has a weight.
pub const WEIGHTED: u8 = 0x80;

impl Weighting {
    // That of a kind number.
    pub fn of_kind(number: u8) -> Weighting {
        if number < WEIGHTED {
            Weighting::OneForAll
        } else {
            Weighting::OneForEach
        }
    }

    // How long the list of weights is of so many symbols.
    pub fn weights(self, symbols: usize) -> usize
        ensures { result ≤ symbols }
    {
        match self {
            Weighting::OneForAll => 0,
            Weighting::OneForEach => symbols,
        }
    }
}

// The weights of a frame.
#[derive(Clone, Copy)]
pub enum Weights<'a> {
    OneForAll(i64),
    OneForEach(&'a [u16]),
}

impl Weights<'_> {
    // That of symbol n, 0 where there is none.
    pub fn weight_at(&self, n: usize) -> i64 {
        match *self {
            Weights::OneForAll(weight) => weight,
            Weights::OneForEach(weights) => weights.get(n).map_or(0, |weight| i64::from(*weight)),
        }
    }
}
