// A soft value in binary32.
ghost use Rattle.std.specs.Prelude.{◌≡◌, ℕ, ◌^◌, ◌≤◌, pos};
ghost use Rattle.std.specs.Float.{binary32};
ghost use Rattle.std.specs.Float.Ieee.{of_int};
ghost use Rattle.binary32.specs.SoftFloat.{max_soft_scale, soft_float};

// A soft value over a power of two, of which it says something up to 2^14. The requirements fix the cast.
pub fn divided(soft: i16, power: f32) -> f32
    ensures { (f : ℕ) → f ≤ max_soft_scale → power ≡ of_int binary32 (pos (2 ^ f)) → result ≡ soft_float f soft }
{
    soft as f32 / power
}
