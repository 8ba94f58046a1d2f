// The numbers that stand for the answers of the calls in C.
#![tactic(auto)]

ghost use Rattle.std.specs.Prelude.{◌≡◌, get_or};
ghost use Rattle.capture.specs.Samples.{sample_status, sample_values};
ghost use Rattle.sizes.specs.Sizes.{sizes_status, sizes_values};
ghost use Rattle.call_numbers.specs.Numbers.{frame_number, IsAnswerNumber, capture_number};

use capture::{CaptureFault, Sample};
use frame::{Fault, Refusal, Served};
use sizes::Sizes;

// The number of the frame call's answer. A function, here and below: neither a Result nor a number is a type of this library, so no From can lead from one to the other.
#[tactic(auto, unfolding(crate::specs::Numbers::frame_number))]
pub fn frame_number(answer: Result<Served, Fault>) -> u64
    ensures { result ≡ frame_number answer }
{
    match answer {
        Err(fault) => u32::from(fault).into(),
        Ok(served) => u64::from(served.probes) * 4294967296,
    }
}

// The number of an answer of which C has no other: that of what refuses the input, as a fault, or 0. The calls that map bits, answer a line and hand out
// soft values return it; proofs/Numbers says what it is for each.
pub fn answer_number<T: Drop, E>(answer: Result<T, E>) -> u32
where
    Fault: From<E>,
    ensures { IsAnswerNumber ⟦<Fault as From<E>>⟧.from_gives answer result }
{
    match answer {
        Err(error) => Fault::from(error).into(),
        Ok(_) => 0,
    }
}

// Hands out the sizes of an answer, and returns its number.
#[tactic(auto, unfolding(sizes::specs::Sizes::sizes_status, sizes::specs::Sizes::sizes_values))]
pub fn hand_out_sizes(
    given: Result<Sizes, Refusal>,
    symbols: &mut u32,
    quadrature: &mut u32,
    probes: &mut u32,
    line: &mut u32,
    answer: &mut u32,
) -> u32
    ensures number { result ≡ sizes_status given }
    ensures symbols { symbols.new ≡ get_or (sizes_values given) 0 symbols.old }
    ensures quadrature { quadrature.new ≡ get_or (sizes_values given) 1 quadrature.old }
    ensures probes { probes.new ≡ get_or (sizes_values given) 2 probes.old }
    ensures line { line.new ≡ get_or (sizes_values given) 3 line.old }
    ensures answer { answer.new ≡ get_or (sizes_values given) 4 answer.old }
{
    let sizes = match given {
        Ok(sizes) => sizes,
        Err(refusal) => return u8::from(refusal).into(),
    };
    *symbols = sizes.symbols;
    *quadrature = sizes.quadrature;
    *probes = sizes.probes;
    *line = sizes.line;
    *answer = sizes.answer;
    0
}

// Hands out the whole numbers of an answer, and returns its number.
#[tactic(auto, unfolding(capture::specs::Samples::sample_status, capture::specs::Samples::sample_values))]
pub fn hand_out(answer: Result<Sample<i32>, Refusal>, yi: &mut i32, yq: &mut i32) -> u32
    ensures number { result ≡ sample_status answer }
    ensures in_phase { yi.new ≡ get_or (sample_values answer) 0 yi.old }
    ensures quadrature { yq.new ≡ get_or (sample_values answer) 1 yq.old }
{
    match answer {
        Err(refusal) => u8::from(refusal).into(),
        Ok(Sample::Single(y)) => {
            *yi = y;
            0
        }
        Ok(Sample::Pair(pair)) => {
            *yi = pair.in_phase;
            *yq = pair.quadrature;
            0
        }
    }
}

// How many numbers of samples 64 bits hold beside a refusal: 2^56.
const SAMPLE_NUMBERS: u64 = 72057594037927936;

// The number of a capture's answer. A cast of the sample's number, since the library has no From of a usize into a u64.
#[tactic(auto, unfolding(crate::specs::Numbers::capture_number, capture::specs::Answers::conversion_status, capture::specs::Answers::conversion_sample))]
pub fn capture_number(answer: Result<usize, CaptureFault>) -> u64
    ensures { result ≡ capture_number answer }
{
    match answer {
        Err(fault) => u64::from(u8::from(fault.refusal))
            + 256 * (fault.sample as u64 % SAMPLE_NUMBERS),
        Ok(_) => 0,
    }
}
