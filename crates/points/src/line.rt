// Levels of PAM and of each QAM axis, and their cost.
ghost use Rattle.std.specs.Prelude.{◌≡◌};
ghost use Rattle.constellation.specs.Ranges.{IndexInRange, AxisInRange};
ghost use Rattle.constellation.specs.Levels.{level};
ghost use Rattle.constellation.specs.Heights.{HeightInRange, axis_height, cost_by_height};

use crate::label::power;

// The level of index k on an axis.
pub fn level(bits: usize, k: usize) -> i64
    requires { IndexInRange bits k }
    ensures { result ≡ level bits k }
{
    (2 * k) as i64 - (power(bits) - 1) as i64
}

// The height of a sample above the lowest level of an axis, the gain in both. What `AxisInRange` says is of three numbers that are told apart at once: a type
// would carry the other two in each.
pub fn axis_height(bits: usize, gain: u64, sample: i64) -> i64
    requires { AxisInRange bits gain sample }
    ensures { result ≡ axis_height bits gain sample }
{
    sample + (gain * (power(bits) - 1) as u64) as i64
}

// The cost of index k on an axis, by the height of the sample and the distance of two levels, 2·gain.
pub fn axis_cost(height: i64, step: i64, k: usize) -> i64
    requires { HeightInRange height step k }
    ensures { result ≡ cost_by_height height step k }
{
    let error = height - step * k as i64;
    error * error
}
