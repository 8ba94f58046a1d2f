// One binary32 number: rounded to a whole number at a scale F, or made from a soft value at a scale f (REQUIREMENTS, "Captures in binary32").
// What they mean stands in specs/.
#![tactic(auto)]

pub mod coordinate;
pub mod soft;

ghost use Rattle.std.specs.Prelude.{◌≡◌, ◌^◌, ◌≤◌, pos};
ghost use Rattle.std.specs.Float.{binary32};
ghost use Rattle.std.specs.Float.Ieee.{of_int};
ghost use Rattle.binary32.specs.Conversion.{max_scale};

// 2^n. A cast, since the library has no From of a u32 into an f32.
pub fn power_of_two(n: u8) -> f32
    requires { n ≤ max_scale }
    ensures { result ≡ of_int binary32 (pos (2 ^ n)) }
{
    (1u32 << n) as f32
}
