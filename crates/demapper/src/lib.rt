// One part of a symbol, an axis or a phase: its nearest index and its soft values. What they mean, and what reading a part writes, stands in specs/.
#![tactic(auto)]

ghost use Rattle.std.specs.Prelude.{◌≡◌, ◌+◌, ◌/◌, ◌^◌, ◌<◌, ◌≤◌, min};
ghost use Rattle.constellation.specs.Psk.{psk_fraction_bits};
ghost use Rattle.constellation.specs.Schemes.{fraction_bits};
ghost use Rattle.demapper.specs.Soft.{soft_value, signed_by, max_weight, max_shift, max_limit};

use constellation::Modulation;

// What makes a soft value of a difference of costs: weight w, shift s + e (e is 14 for a phase and else 0) and limit T, of any size. Half of 2^shift, which
// rounding adds, is made once a frame.
#[derive(Clone, Copy)]
pub struct SoftScale {
    pub weight: u64,
    pub half: u64,
    pub shift: usize,
    pub limit: u64,
}

impl SoftScale {
    ghost use Rattle.demapper.specs.Rounding.{soft_scale};

    // Of weight w, shift s and limit T, and of e, which the modulation gives. Three numbers, as a header has them among others: a struct of the three would be made of
    // it at each call.
    pub fn new(weight: u16, shift: u8, limit: u16, modulation: Modulation) -> SoftScale
        requires { shift ≤ max_shift }
        ensures { result ≡ soft_scale weight shift limit modulation }
    {
        let shift = usize::from(shift) + modulation.fraction_bits();
        SoftScale {
            weight: u64::from(weight),
            half: (1 << shift) / 2,
            shift,
            limit: u64::from(limit),
        }
    }
}

// What makes a soft value, where weight, shift and limit are in their ranges.
#[derive(Clone, Copy)]
pub struct Rounding {
    pub scale: SoftScale,
    pub ghost weight_in: { scale.weight ≤ max_weight },
    pub ghost shift_in: { scale.shift ≤ max_shift + psk_fraction_bits },
    pub ghost limit_in: { scale.limit ≤ max_limit },
    pub ghost half_is: { scale.half ≡ 2 ^ scale.shift / 2 },
}

impl Rounding {
    ghost use Rattle.demapper.specs.Rounding.{scale_of};

    // Of weight w, shift s and limit T in their ranges, and of e, which the modulation gives.
    pub fn new(weight: u16, shift: u8, limit: u16, modulation: Modulation) -> Rounding
        requires { (weight ≤ max_weight) × (shift ≤ max_shift) × (limit ≤ max_limit) }
        ensures { scale_of result ≡ record { weight = weight; shift = shift + fraction_bits modulation; limit = limit } }
    {
        Rounding {
            scale: SoftScale::new(weight, shift, limit, modulation),
        }
    }

    // The same with another weight.
    pub fn weighing(self, weight: u16) -> Rounding
        requires { weight ≤ max_weight }
        ensures { scale_of result ≡ record { weight = weight; shift = self.scale.shift; limit = self.scale.limit } }
    {
        Rounding {
            scale: SoftScale {
                weight: u64::from(weight),
                ..self.scale
            },
        }
    }
}

// The next position for bits, in the buffers of hard bits and soft values, and for probes, in those of indices and costs.
#[derive(Clone, Copy)]
pub struct Place {
    pub bit: usize,
    pub probe: usize,
}

impl Place {
    // The place behind so many bits and probes.
    pub fn behind(self, bits: usize, probes: usize) -> Place
        requires { (self.bit + bits < 2 ^ 64) × (self.probe + probes < 2 ^ 64) }
        ensures { result ≡ record { bit = self.bit + bits; probe = self.probe + probes } }
    {
        Place {
            bit: self.bit + bits,
            probe: self.probe + probes,
        }
    }
}

// The four lent buffers that a reading is written into: hard bits, soft values, and the indices and costs of the probes. C lends them one by one, so there are
// four and not two of bits and probes. That a function hands back the buffers that it was lent (`SameBuffers`) is of before and after, and so no type can say it.
#[derive(Drop)]
pub struct OutputBuffers<'a> {
    pub hard: &'a mut [u8],
    pub soft: &'a mut [i16],
    pub indices: &'a mut [u8],
    pub costs: &'a mut [i64],
}

// From the difference's size and its sign: plus where the nearest point's bit is 0, minus where it is 1. The size is rounded with halves up
// and held below the limit before the sign is put on, so both signs are treated alike. No step has a branch: neither the sign nor whether a value is
// held by its limit can be foreseen.
pub fn soft_value(size: u64, bit: usize, rounding: Rounding) -> i16
    requires { (size < 2 ^ 50) × (bit < 2) }
    ensures { result ≡ soft_value rounding.scale.weight rounding.scale.shift rounding.scale.limit (signed_by bit size) }
{
    let SoftScale {
        weight,
        half,
        shift,
        limit,
    } = rounding.scale;
    let rounded = (size * weight + half) >> shift;
    let held = smaller(rounded, limit);
    (1 - 2 * bit as i16) * held as i16
}

// The smaller of two numbers: the second, less what the first falls short of it. Of a plain choice, as the library's `min` is, the compiler makes a branch
// where the second lies in memory, and whether a soft value is held by its limit cannot be foreseen: with `min` a symbol of BPSK takes 1.3 times as long.
fn smaller(a: u64, b: u64) -> u64
    requires { (a < 2 ^ 63) × (b < 2 ^ 63) }
    ensures { result ≡ min b a }
{
    let past = a as i64 - b as i64;
    let below = if past < 0 { past } else { 0 };
    (b as i64 + below) as u64
}
