// Handing soft values out in binary32.
#![tactic(auto)]

ghost use Rattle.std.specs.Prelude.{◌≤◌, length};
ghost use Rattle.binary32.specs.SoftFloat.{max_soft_scale};
ghost use Rattle.capture.specs.SoftOut.{SoftPromise, SoftsPromise};
ghost use Rattle.capture.specs.Converting.{SoftsWritten};

use binary32::power_of_two;
use binary32::soft::divided;
use capture::CaptureFault;
use frame::Refusal;

// The largest scale f.
const MAX_SOFT_SCALE: u8 = 14;

// Converts a soft value at the scale f, that is, its value times 2^(−f), exact.
pub fn convert_soft(scale: u8, soft: i16) -> Result<f32, Refusal>
    ensures { SoftPromise scale soft result }
{
    if MAX_SOFT_SCALE < scale {
        Err(Refusal::Scale)
    } else {
        Ok(divided(soft, power_of_two(scale)))
    }
}

// Converts soft values at the scale f to the start of a lent buffer, and answers their number; a refused call leaves the buffer as it is.
pub fn convert_softs(scale: u8, soft: &[i16], out: &mut [f32]) -> Result<usize, CaptureFault>
    ensures { SoftsPromise scale soft.now out.old out.new result }
{
    if MAX_SOFT_SCALE < scale {
        return Err(Refusal::Scale.into());
    }
    if out.len() < soft.len() {
        return Err(Refusal::OutputTooShort.into());
    }
    write_softs(scale, soft, out);
    Ok(soft.len())
}

// Writes the soft values of a call that passes its checks. A twin of the loop over single numbers of a capture, but for a function of other types and its clause:
// one of both would take a closure with a law of what it gives. It indexes the list written, since `iter_mut().zip(..)` tells a proof nothing of what is
// written, and `iter_mut().enumerate()` would index the list read in its place.
fn write_softs(scale: u8, soft: &[i16], out: &mut [f32])
    requires { (scale ≤ max_soft_scale) × (length soft.now ≤ length out.old) }
    ensures { SoftsWritten scale soft.now out.old out.new }
{
    let power = power_of_two(scale);
    for (i, value) in soft.iter().enumerate() {
        out[i] = divided(*value, power);
    }
}
