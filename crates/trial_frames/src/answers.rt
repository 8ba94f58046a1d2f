// What the frame call answers, and what is wanted of it.
use frame::{Fault, Served};
use std::fmt;

// An answer of the frame call, or one that is wanted: the number of probes, or the refusal and the symbol at fault.
#[derive(Clone, Copy, PartialEq, Eq)]
pub struct Answer(pub Result<Served, Fault>);

// As the number that C gets: the probes times 2^32, or the refusal and 256 times the symbol's number.
// What `call_numbers::frame_number` gives is written out again here, as a check of its own.
impl fmt::Display for Answer {
    fn fmt<W: fmt::Write>(&self, f: &mut fmt::Formatter<W>) -> fmt::Result {
        let Answer(answer) = *self;
        let number = match answer {
            Ok(served) => u64::from(served.probes) * 4294967296,
            Err(fault) => u64::from(u8::from(fault.refusal)) + 256 * u64::from(fault.symbol),
        };
        write!(f, "{number}")
    }
}

// What is wanted of a frame: what a search of every point finds, the same and that no word contradicts it, for which its words have at most 12 bits, or a
// refusal that leaves the buffers as they were.
#[derive(Clone, Copy)]
pub enum Wanted {
    Points,
    Words,
    Refusal(Fault),
}

// A refusal is wanted, or else what a search of every point finds.
impl From<Option<Fault>> for Wanted {
    fn from(fault: Option<Fault>) -> Wanted {
        fault.map_or(Wanted::Points, Wanted::Refusal)
    }
}
