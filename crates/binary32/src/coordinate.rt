// Converting one binary32 number at a scale F.
//
// Between 2^23 and 2^24 binary32 numbers are the whole numbers, so a sum there is rounded to the nearest whole number, halves to even.
// MIDDLE lies amid them and is even: the sum with it rounds any number within ±2^22, of either sign, and the integer is MIDDLE too large.
ghost use Rattle.std.specs.Prelude.{◌≡◌, true, ◌≤◌};
ghost use Rattle.binary32.specs.Conversion.{max_scale, rounded, converts};
ghost use Rattle.binary32.specs.Scaling.{IsScaling, IsScaling_prop, refusal_for, converted_number};

use crate::power_of_two;
use frame::Refusal;

// The middle of the numbers between 2^23 and 2^24.
const MIDDLE: f32 = 12582912.0;

const MIDDLE_AS_INTEGER: i32 = 12582912;

// The largest size that rounds into the range of samples: 1048576.5, a half, goes to the even number below it.
const LARGEST: f32 = 1048576.5;

// A scale F, 2^F, and LARGEST over 2^F, which is the largest size of a number that converts.
#[derive(Clone, Copy)]
pub struct Scaling {
    pub scale: u8,
    pub factor: f32,
    pub limit: f32,
    pub ghost in_range: { IsScaling scale factor limit } by { IsScaling_prop scale factor limit },
}

// What stands for a scale in its range, which its callers have tested: a scale is a number of C's, of any size.
pub fn scaling_of(scale: u8) -> Scaling
    requires { scale ≤ max_scale }
    ensures { result.scale ≡ scale }
{
    let factor = power_of_two(scale);
    Scaling {
        scale,
        factor,
        limit: LARGEST / factor,
    }
}

// Whether a number is finite and rounds into the range of samples.
pub fn is_convertible(x: f32, scaling: Scaling) -> bool
    ensures { result ≡ converts scaling.scale x }
{
    -scaling.limit <= x && x <= scaling.limit
}

// The whole number nearest to a convertible number times 2^F. A cast, since no From makes a float an integer.
pub fn round_scaled(x: f32, scaling: Scaling) -> i32
    requires { converts scaling.scale x ≡ true }
    ensures { result ≡ rounded scaling.scale x }
{
    (x * scaling.factor + MIDDLE) as i32 - MIDDLE_AS_INTEGER
}

// The refusal of a number that is not convertible: 13 where it is finite, else 12.
pub fn refusal_of(x: f32) -> Refusal
    ensures { result ≡ refusal_for x }
{
    if x.is_finite() {
        Refusal::RoundsOutOfRange
    } else {
        Refusal::NotFinite
    }
}

// Converts one number.
#[tactic(auto, unfolding(crate::specs::Scaling::converted_number))]
pub fn convert_number(x: f32, scaling: Scaling) -> Result<i32, Refusal>
    ensures { result ≡ converted_number scaling.scale x }
{
    if is_convertible(x, scaling) {
        Ok(round_scaled(x, scaling))
    } else {
        Err(refusal_of(x))
    }
}
