// Captures in binary32 (REQUIREMENTS, "Captures in binary32"): one sample, and the answers. What samples and soft values mean, and what the calls
// promise, stands in specs/; whole captures are converted by the crate capture_call, and soft values by the crate capture_out.
#![tactic(auto)]

ghost use Rattle.std.specs.Prelude.{◌≡◌};
ghost use Rattle.capture.specs.declared.Sample.TheVariants.{Single, Pair};
ghost use Rattle.capture.specs.Answers.{fault_at};
ghost use Rattle.capture.specs.Samples.{SamplePromise};
ghost use Rattle.capture.specs.Converting.{coordinates_answer};

use binary32::coordinate::{Scaling, convert_number, scaling_of};
use frame::Refusal;

// The largest scale F.
pub const MAX_SCALE: u8 = 20;

// Both coordinates of a sample of QAM or PSK, in binary32 or in the whole numbers that they convert to.
#[derive(Clone, Copy)]
pub struct QuadratureSample<T> {
    pub in_phase: T,
    pub quadrature: T,
}

// A sample: of PAM its one coordinate, else both.
#[derive(Clone, Copy)]
pub enum Sample<T> {
    Single(T),
    Pair(QuadratureSample<T>),
}

// A capture as it is handed in: the kind number of its samples, the scale F, and its numbers, for PAM one a sample, else in-phase and quadrature by turns.
#[derive(Clone, Copy)]
pub struct Capture<'a> {
    // A number and no enum: C hands it in, and one that is too large is refused.
    pub kind: u8,
    pub scale: u8,
    pub numbers: &'a [f32],
}

// Why a whole buffer is not converted: the refusal, and the number of the sample refused, which is 0 unless a number is refused.
// Beside `Fault` of frame: one generic type is no plainer, since the field says symbol or sample, and zero of any type would want a bound with laws at each use.
#[derive(Clone, Copy)]
pub struct CaptureFault {
    pub refusal: Refusal,
    pub sample: usize,
}

// A buffer that is refused for something else than a number.
impl From<Refusal> for CaptureFault {
    ghost from_gives = { λ refusal fault. fault ≡ fault_at refusal 0 };

    fn from(refusal: Refusal) -> CaptureFault {
        CaptureFault { refusal, sample: 0 }
    }
}

// Converts a sample at the scale F, that is, its value times 2^F rounded to the nearest whole number, halves to even.
pub fn convert_sample(scale: u8, sample: Sample<f32>) -> Result<Sample<i32>, Refusal>
    ensures { SamplePromise scale sample result }
{
    if MAX_SCALE < scale {
        return Err(Refusal::Scale);
    }
    let scaling = scaling_of(scale);
    match sample {
        Sample::Single(x) => convert_single(x, scaling),
        Sample::Pair(pair) => convert_pair(pair, scaling),
    }
}

// Converts one number.
fn convert_single(x: f32, scaling: Scaling) -> Result<Sample<i32>, Refusal>
    ensures { result ≡ coordinates_answer scaling.scale (Single x) }
{
    convert_number(x, scaling).map(Sample::Single)
}

// Converts a pair, its in-phase number first.
fn convert_pair(pair: QuadratureSample<f32>, scaling: Scaling) -> Result<Sample<i32>, Refusal>
    ensures { result ≡ coordinates_answer scaling.scale (Pair pair) }
{
    Ok(Sample::Pair(QuadratureSample {
        in_phase: convert_number(pair.in_phase, scaling)?,
        quadrature: convert_number(pair.quadrature, scaling)?,
    }))
}
