// The nearest index on an axis, without a search: by one division.
#![tactic(auto)]

ghost use Rattle.std.specs.Prelude.{◌≡◌};
ghost use Rattle.constellation.specs.Ranges.{AxisInRange};
ghost use Rattle.constellation.specs.Parts.{axis};

use points::label::power;

// An index k > 0 is nearer than k − 1 where sample + gain·2^bits is above 2·gain·k; on the edge between them both cost the
// same, and the smaller one is taken.
// `AxisInRange` is a fact of three numbers that differ from call to call: a type that held it would carry the others once more in each.
pub fn nearest_level(bits: usize, gain: u64, sample: i64) -> usize
    requires { AxisInRange bits gain sample }
    ensures { result ≡ (axis bits gain sample).nearest }
{
    if gain == 0 {
        return 0;
    }
    let points = power(bits);
    let height = sample + (gain * points as u64) as i64;
    if height < 1 {
        return 0;
    }
    let k = ((height - 1) as u32 / (2 * gain) as u32) as usize;
    k.min(points - 1)
}
