// The soft value of a difference of weighted costs (REQUIREMENTS, "Soft values").
ghost use Rattle.std.specs.Prelude.{◌≡◌, ◌^◌, ◌≤◌, min};

use crate::Settings;

impl Settings {
    // The difference / 2^(s+e), rounded to the nearest whole number, halves away from zero, then held within −T to T.
    pub fn soft_value(&self, difference: i64) -> i16 {
        let size = rounded(difference.unsigned_abs(), self.unit()).min(self.most()) as i16;
        if difference < 0 {
            size.wrapping_neg()
        } else {
            size
        }
    }

    // Whether the difference / 2^(s+e) lies halfway between two whole numbers, and its soft value is not cut off by the limit.
    pub fn is_half(&self, difference: i64) -> bool {
        let size = difference.unsigned_abs();
        let unit = self.unit();
        let rest = size % unit;
        rest == unit - rest && rounded(size, unit) <= self.most()
    }

    // 2^(s+e), which is 2^54 at most.
    fn unit(&self) -> u64
        ensures { (1 ≤ result) × (result ≤ 2 ^ 54) × (2 ^ min self.now.shift 54 ≤ result) }
    {
        power_of_two(self.shift.min(54) as u32 + self.modulation.scale())
    }

    // T, as soft values have it.
    fn most(&self) -> u64
        ensures { result ≤ 32767 }
    {
        u64::try_from(self.limit).map_or(0, |limit| limit.min(32767))
    }
}

// 2 to the power of up to 54.
fn power_of_two(exponent: u32) -> u64
    ensures { (1 ≤ result) × (result ≤ 2 ^ 54) × (result ≡ 2 ^ min exponent 54) }
{
    1 << exponent.min(54)
}

// size / unit to the nearest whole number, halves up.
fn rounded(size: u64, unit: u64) -> u64
    requires { (size ≤ 2 ^ 63) × (1 ≤ unit) }
    ensures { result ≤ size }
{
    let rest = size % unit;
    if rest < unit - rest {
        size / unit
    } else {
        size / unit + 1
    }
}
