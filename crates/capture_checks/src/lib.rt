// The checks of a capture, in the order of REQUIREMENTS, "Refusals".
#![tactic(auto)]

ghost use Rattle.std.specs.Prelude.{◌≡◌, true, ◌&&◌, ◌%◌, ◌≤◌, length, fold};
ghost use Rattle.binary32.specs.Conversion.{max_scale, converts};
ghost use Rattle.capture.specs.Capture.{recorded, numbers_per_sample, capture_answer};
ghost use Rattle.capture.specs.Converting.{samples_answer, FirstRefused};
ghost use Rattle.capture_checks.specs.Layouts.{layout_of, numbers_in, with_layout};

use binary32::coordinate::{Scaling, is_convertible, refusal_of, scaling_of};
use capture::{Capture, CaptureFault, MAX_SCALE};
use frame::{MAX_KIND, Refusal, plain_kind};

// How the numbers of a capture stand: one a sample, as for PAM, or in-phase and quadrature by turns.
#[derive(Clone, Copy)]
pub enum Layout {
    Singles,
    Pairs,
}

// By the kind number, of which 0 is PAM. Here the number that C hands in, which a check has passed, becomes a layout.
impl From<u8> for Layout {
    ghost from_gives = { λ kind layout. layout ≡ layout_of kind };

    #[tactic(auto, unfolding(crate::specs::Layouts::layout_of))]
    fn from(kind: u8) -> Layout {
        if kind == 0 {
            Layout::Singles
        } else {
            Layout::Pairs
        }
    }
}

impl Layout {
    // How many numbers a sample has.
    #[tactic(auto, unfolding(crate::specs::Layouts::numbers_in))]
    fn numbers_per_sample(self) -> usize
        ensures { result ≡ numbers_in self }
    {
        match self {
            Layout::Singles => 1,
            Layout::Pairs => 2,
        }
    }
}

// What the checks find of a capture that passes them: how many samples it has, and how their numbers stand.
#[derive(Clone, Copy)]
pub struct Checked {
    pub samples: usize,
    pub layout: Layout,
}

// All checks of a capture: 14, 4 by the kind less 80 hexadecimal, 16, 15, then sample by sample 12 and 13.
// The room is that of two lists, which are C's own.
#[tactic(auto, using(crate::proofs::Layouts::some_in, crate::proofs::Layouts::numbers_by_kind))]
pub fn check_capture(
    capture: Capture<'_>,
    roomi: usize,
    roomq: usize,
) -> Result<Checked, CaptureFault>
    ensures { result ≡ with_layout (recorded capture.entry).kind (capture_answer (recorded capture.entry) roomi roomq) }
{
    if MAX_SCALE < capture.scale {
        return Err(Refusal::Scale.into());
    }
    let kind = plain_kind(capture.kind);
    if MAX_KIND < kind {
        return Err(Refusal::Kind.into());
    }
    let layout = Layout::from(kind);
    let each = layout.numbers_per_sample();
    let count = capture.numbers.len() / each;
    if capture.numbers.len() % each != 0 {
        Err(Refusal::InputLength.into())
    } else if roomi < count || roomq < count * (each - 1) {
        Err(Refusal::OutputTooShort.into())
    } else {
        check_samples(capture, each).map(|samples| Checked { samples, layout })
    }
}

// 12 and 13, sample by sample, of a capture that is made of whole samples, each of so many numbers: the caller has counted them by the layout, and tested
// the scale, a number of C's.
#[tactic(auto, using(capture::proofs::CaptureChecks::some_numbers))]
fn check_samples(capture: Capture<'_>, each: usize) -> Result<usize, CaptureFault>
    requires { (capture.scale ≤ max_scale) × (each ≡ numbers_per_sample (recorded capture).kind) × (length capture.numbers.now % each ≡ 0) }
    ensures { result ≡ samples_answer (recorded capture.entry) }
{
    let numbers = capture.numbers;
    match first_refused(scaling_of(capture.scale), numbers) {
        Some(at) => Err(CaptureFault {
            refusal: refusal_of(numbers[at]),
            sample: at / each,
        }),
        None => Ok(numbers.len() / each),
    }
}

// Whether each number is convertible. The loop has no branch, so that it is quick where all are.
fn all_convertible(scaling: Scaling, numbers: &[f32]) -> bool
    ensures { result ≡ fold (λ all x. all && converts scaling.scale x) true numbers.now }
{
    numbers
        .iter()
        .fold(true, |all, x| all & is_convertible(*x, scaling))
}

// The position of the first number that is not convertible.
fn first_refused(scaling: Scaling, numbers: &[f32]) -> Option<usize>
    ensures { FirstRefused scaling.scale numbers.now result }
{
    if all_convertible(scaling, numbers) {
        None
    } else {
        numbers.iter().position(|x| !is_convertible(*x, scaling))
    }
}
