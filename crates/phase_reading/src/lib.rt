// Reading a phase into the buffers: hard bits, soft values and probes.
#![tactic(auto)]

ghost use Rattle.std.specs.Prelude.{ℕ, ℤ};
ghost use Rattle.constellation.specs.Ranges.{PhaseInRange};
ghost use Rattle.constellation.specs.Parts.{phase};
ghost use Rattle.demapper.specs.Lent.{held_in, SameBuffers};
ghost use Rattle.demapper.specs.Rounding.{scale_of};
ghost use Rattle.demapper.specs.Reading.{PartFits, PartRead};
ghost use Rattle.phase_reading.specs.PhaseProbes.{PhaseProbes, SomePhaseProbes};

use demapper::{OutputBuffers, Place, Rounding, soft_value};
use phase_costs::{MAX_PHASE_PROBES, phase_costs, phase_probed};
use phase_nearest::nearest_phase;
use points::label::label_bit;

// Writes the hard bits, soft values and probes of a phase from the place on. Each number of bits has a call of its own, in which it is a constant.
// `PhaseInRange` and `PartFits` are facts of several numbers and four buffers that differ from call to call, and so is the place: a type for each would be put together
// for each part that is read, and taken apart again where it is written. For the hints see docs/DECISIONS.md, "Hints on inlining".
#[inline(always)]
pub fn read_phase(
    bits: usize,
    gain: u64,
    yi: i64,
    yq: i64,
    rounding: Rounding,
    place: Place,
    out: &mut OutputBuffers<'_>,
)
    requires { (PhaseInRange bits gain yi yq) × (PartFits bits place.bit 1 place.probe (held_in out.old)) }
    ensures same { SameBuffers out.old out.new }
    ensures read { PartRead (phase bits gain yi yq) (scale_of rounding) place.bit 1 place.probe
        (held_in out.old) (held_in out.new) }
{
    // With a number of bits that is no constant the compiler cannot unroll the loop over them, and a frame takes longer.
    match bits {
        1 => read_points::<1>(gain, yi, yq, rounding, place, out),
        2 => read_points::<2>(gain, yi, yq, rounding, place, out),
        3 => read_points::<3>(gain, yi, yq, rounding, place, out),
        _ => read_points::<4>(gain, yi, yq, rounding, place, out),
    }
}

// Reads a phase with so many bits.
#[inline(always)]
fn read_points<const BITS: usize>(
    gain: u64,
    yi: i64,
    yq: i64,
    rounding: Rounding,
    place: Place,
    out: &mut OutputBuffers<'_>,
)
    requires { (PhaseInRange BITS gain yi yq) × (PartFits BITS place.bit 1 place.probe (held_in out.old)) }
    ensures same { SameBuffers out.old out.new }
    ensures read { PartRead (phase BITS gain yi yq) (scale_of rounding) place.bit 1 place.probe
        (held_in out.old) (held_in out.new) }
{
    let p = 2 * gain * yi.unsigned_abs();
    let q = 2 * gain * yq.unsigned_abs();
    let probed = phase_probed(BITS, nearest_phase(BITS, gain, yi, yq));
    let cost = phase_costs(BITS, p, q);
    write_points(BITS, probed, cost, rounding, place, out)
}

// Writes the hard bits, soft values and probes of a phase, by the indices that are probed, k*, k0, k1 and so on, and their costs.
// Indices come from the nearest index alone and costs from the sample alone, by two functions: a list of pairs would be put together to be read once.
fn write_points(
    bits: usize,
    k: [usize; MAX_PHASE_PROBES],
    cost: [i64; MAX_PHASE_PROBES],
    rounding: Rounding,
    place: Place,
    out: &mut OutputBuffers<'_>,
)
    requires { (SomePhaseProbes bits k cost)
        × (PartFits bits place.bit 1 place.probe (held_in out.old)) }
    ensures same { SameBuffers out.old out.new }
    ensures read { (gain : ℕ) (yi yq : ℤ) → PhaseProbes bits gain yi yq k cost →
        PartRead (phase bits gain yi yq) (scale_of rounding) place.bit 1 place.probe (held_in out.old) (held_in out.new) }
{
    let hard = &mut *out.hard;
    let soft = &mut *out.soft;
    let indices = &mut *out.indices;
    let costs = &mut *out.costs;
    let at = place.bit;
    let start = place.probe;
    let nearest = k[0];
    let least = cost[0];
    // An index, at which two arrays are read and four buffers written.
    for i in 0..bits {
        let counter = k[i + 1];
        let other = cost[i + 1];
        let bit = label_bit(bits, nearest, i);
        hard[at + i] = bit as u8;
        soft[at + i] = soft_value((other - least) as u64, bit, rounding);
        indices[start + 1 + i] = counter as u8;
        costs[start + 1 + i] = other;
    }
    indices[start] = nearest as u8;
    costs[start] = least;
}
