// Reading an axis into the buffers: hard bits, soft values and probes.
#![tactic(auto)]

ghost use Rattle.std.specs.Prelude.{◌≤◌};
ghost use Rattle.constellation.specs.Ranges.{AxisInRange};
ghost use Rattle.constellation.specs.Parts.{axis};
ghost use Rattle.demapper.specs.Lent.{held_in, SameBuffers};
ghost use Rattle.demapper.specs.Rounding.{scale_of};
ghost use Rattle.demapper.specs.Reading.{PartFits, PartRead};
ghost use Rattle.axis_reading.specs.Turned.{labelled, apart, turned, most_bits};

use axis_nearest::nearest_level;
use demapper::{OutputBuffers, Place, Rounding, soft_value};
use points::counter::axis_counter;
use points::label::{label_bit, turned_bit};
use points::line::{axis_cost, axis_height};

// Writes the hard bits and soft values of an axis and its probes from the place on: the bits side by side and as its labels have them, or, with cellular
// labels, at every second position and turned round. Each number of bits has a call of its own, in which it is a constant; with cellular labels three do.
// The labelling is a flag: a const parameter is a number or a flag, and never an enum.
// `PartFits` is a fact of several numbers and four buffers that differ from call to call: a type that held it would carry the others once more in each.
// So is `AxisInRange`, of gain, sample and bits. The place differs from call to call and the buffers are lent: a struct of these and the rounding would be put together
// for each part that is read, and taken apart again where it is written.
pub fn read_axis<const CELLULAR: bool>(
    bits: usize,
    gain: u64,
    y: i64,
    rounding: Rounding,
    place: Place,
    out: &mut OutputBuffers<'_>,
)
    requires { (AxisInRange bits gain y)
        × (bits ≤ most_bits CELLULAR)
        × (PartFits bits place.bit (apart CELLULAR) place.probe (held_in out.old)) }
    ensures same { SameBuffers out.old out.new }
    ensures read { PartRead (labelled CELLULAR (axis bits gain y)) (scale_of rounding) place.bit (apart CELLULAR) place.probe
        (held_in out.old) (held_in out.new) }
{
    if CELLULAR && bits > 3 {
        unreachable!();
    }
    // With a number of bits that is no constant the compiler cannot unroll the loop over them, and a frame takes longer.
    match bits {
        1 => read_levels::<1, CELLULAR>(gain, y, rounding, place, out),
        2 => read_levels::<2, CELLULAR>(gain, y, rounding, place, out),
        3 => read_levels::<3, CELLULAR>(gain, y, rounding, place, out),
        4 => read_levels::<4, CELLULAR>(gain, y, rounding, place, out),
        5 => read_levels::<5, CELLULAR>(gain, y, rounding, place, out),
        _ => read_levels::<6, CELLULAR>(gain, y, rounding, place, out),
    }
}

// Reads an axis with so many bits. The loop over them is that of `phase_reading`, but that it finds each counter-hypothesis and its cost itself: given both in arrays,
// as that loop is, they would be written to memory first.
fn read_levels<const BITS: usize, const CELLULAR: bool>(
    gain: u64,
    y: i64,
    rounding: Rounding,
    place: Place,
    out: &mut OutputBuffers<'_>,
)
    requires { (AxisInRange BITS gain y) × (PartFits BITS place.bit (apart CELLULAR) place.probe (held_in out.old)) }
    ensures same { SameBuffers out.old out.new }
    ensures read { PartRead (turned CELLULAR (axis BITS gain y)) (scale_of rounding) place.bit (apart CELLULAR) place.probe
        (held_in out.old) (held_in out.new) }
{
    let hard = &mut *out.hard;
    let soft = &mut *out.soft;
    let indices = &mut *out.indices;
    let costs = &mut *out.costs;
    let apart = if CELLULAR { 2 } else { 1 };
    let nearest = nearest_level(BITS, gain, y);
    let height = axis_height(BITS, gain, y);
    let step = (2 * gain) as i64;
    let least = axis_cost(height, step, nearest);
    // An index, at which four buffers are written.
    for i in 0..BITS {
        let counter = axis_counter(BITS, nearest, i);
        let cost = axis_cost(height, step, counter);
        indices[place.probe + 1 + i] = counter as u8;
        let label = label_bit(BITS, nearest, i);
        let bit = turned_bit(label, CELLULAR);
        let at = place.bit + i * apart;
        hard[at] = bit as u8;
        let value = soft_value((cost - least) as u64, bit, rounding);
        soft[at] = value;
        costs[place.probe + 1 + i] = cost;
    }
    indices[place.probe] = nearest as u8;
    costs[place.probe] = least;
}
