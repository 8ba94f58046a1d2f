// The counter-hypothesis of bit i of an index.
ghost use Rattle.std.specs.Prelude.{◌≡◌};
ghost use Rattle.constellation.specs.Ranges.{BitInRange};
ghost use Rattle.constellation.specs.Counter.{axis_counter, phase_counter};

use crate::label::power;

// On an axis.
pub fn axis_counter(bits: usize, k: usize, i: usize) -> usize
    requires { BitInRange bits k i }
    ensures { result ≡ axis_counter bits k i }
{
    let place = bits - 1 - i;
    let digits = k >> place;
    let digit = digits % 2;
    (digits + 1 - digit) * power(place) - digit
}

// On the circle, where bit 0 goes its own way.
pub fn phase_counter(bits: usize, k: usize, i: usize) -> usize
    requires { BitInRange bits k i }
    ensures { result ≡ phase_counter bits k i }
{
    if i == 0 {
        opposite(bits, k)
    } else {
        axis_counter(bits, k, i)
    }
}

// Bit 0 on the circle: across the horizontal axis, on the side of k.
fn opposite(bits: usize, k: usize) -> usize
    requires { BitInRange bits k 0 }
    ensures { result ≡ phase_counter bits k 0 }
{
    let half = power(bits) / 2;
    let digit0 = k / half;
    let digit1 = 2 * k / half % 2;
    (1 - digit0) * half + (1 - digit1) * (half - 1)
}
