// Converting a whole capture into the sample buffers of the frame call.
#![tactic(auto)]

ghost use Rattle.std.specs.Prelude.{◌≡◌, ◌+◌, ◌*◌, ◌/◌, ◌≤◌, length, get_or};
ghost use Rattle.std.specs.Float.{nan};
ghost use Rattle.arithmetic.specs.Lists.{first, over};
ghost use Rattle.binary32.specs.Conversion.{rounded};
ghost use Rattle.capture.specs.Capture.{recorded, samples_in, capture_answer, CapturePromise};
ghost use Rattle.capture.specs.Converting.{AllConvert, CaptureWritten};
ghost use Rattle.capture_checks.specs.Layouts.{layout_of};

use binary32::coordinate::{Scaling, round_scaled, scaling_of};
use capture::{Capture, CaptureFault};
use capture_checks::{Layout, check_capture};

// Converts a capture at its scale F: for kind 0, PAM, each number is a sample; for the other kinds in-phase and quadrature numbers
// take turns. 80 hexadecimal added to a kind does not matter. Writes the whole numbers at the start of the two lent buffers, and answers the number of
// samples; a refused capture leaves the buffers as they are. For PAM the second buffer is left alone, whatever its length.
// The two lists are C's own, and a struct that lends slices wants a clause at each function that it lends the same ones.
pub fn convert_capture(
    capture: Capture<'_>,
    yi: &mut [i32],
    yq: &mut [i32],
) -> Result<usize, CaptureFault>
    ensures { CapturePromise (recorded capture.entry) yi.old yq.old yi.new yq.new result }
{
    let found = check_capture(capture, yi.len(), yq.len())?;
    write_capture(capture, found.layout, yi, yq);
    Ok(found.samples)
}

// Writes the whole numbers of a capture that passes its checks.
fn write_capture(capture: Capture<'_>, layout: Layout, yi: &mut [i32], yq: &mut [i32])
    requires passes { capture_answer (recorded capture) (length yi.old) (length yq.old)
        ≡ Ok (samples_in (recorded capture)) }
    requires known { layout ≡ layout_of (recorded capture).kind }
    ensures { CaptureWritten (recorded capture.entry) yi.old yq.old yi.new yq.new }
{
    let scaling = scaling_of(capture.scale);
    match layout {
        Layout::Singles => write_singles(scaling, capture.numbers, yi),
        Layout::Pairs => write_pairs(scaling, capture.numbers, yi, yq),
    }
}

// Writes the whole number of each number. It indexes the list written, since `iter_mut().zip(..)` tells a proof nothing of what is written, and
// `iter_mut().enumerate()` would index the list read in its place.
fn write_singles(scaling: Scaling, numbers: &[f32], yi: &mut [i32])
    requires { AllConvert scaling.scale numbers.now × (length numbers.now ≤ length yi.old) }
    ensures { yi.new ≡ over yi.old 0
        (first (λ n. rounded scaling.scale (get_or numbers.now n nan)) (length numbers.now)) }
{
    for (n, x) in numbers.iter().enumerate() {
        yi[n] = round_scaled(*x, scaling);
    }
}

// Writes the whole numbers of each pair, by an index as `write_singles`.
fn write_pairs(scaling: Scaling, numbers: &[f32], yi: &mut [i32], yq: &mut [i32])
    requires { AllConvert scaling.scale numbers.now
        × (length numbers.now / 2 ≤ length yi.old)
        × (length numbers.now / 2 ≤ length yq.old) }
    ensures in_phase { yi.new ≡ over yi.old 0
        (first (λ n. rounded scaling.scale (get_or numbers.now (n * 2) nan)) (length numbers.now / 2)) }
    ensures quadrature { yq.new ≡ over yq.old 0
        (first (λ n. rounded scaling.scale (get_or numbers.now (n * 2 + 1) nan)) (length numbers.now / 2)) }
{
    let (pairs, _) = numbers.as_chunks::<2>();
    for (n, [i, q]) in pairs.iter().enumerate() {
        yi[n] = round_scaled(*i, scaling);
        yq[n] = round_scaled(*q, scaling);
    }
}
