// Numbers drawn at random, often where a reading is hard: ties, midpoints, the ends of ranges, and gain 0.
ghost use Rattle.std.specs.Prelude.{◌≡◌, ◌<◌, ◌≤◌, replicate, unsigned_abs};

use crate::schemes::{Extent, plain_header};
use exhaustive::modulations::{Bits, Modulation, Setup};
use exhaustive::weights::Weighting;
use frame::Header;

// A Lehmer generator modulo 2^31 − 1.
#[derive(Drop)]
pub struct Lehmer {
    state: u64,
    ghost within: { state < 2147483647 },
}

impl Lehmer {
    pub fn new(seed: u64) -> Lehmer {
        Lehmer {
            state: seed % 2147483647,
        }
    }

    // A number below `below`.
    pub fn draw(&mut self, below: u64) -> u64
        requires { 0 < below }
        ensures { result < below }
    {
        self.state = self.state * 48271 % 2147483647;
        self.state % below
    }

    // How many symbols a frame is to have when so many are left to draw: often few, sometimes 256.
    pub fn count(&mut self, left: u64) -> u64
        requires { 0 < left }
        ensures { (0 < result) × (result ≤ left) × (result ≤ 256) }
    {
        self.length().min(left)
    }

    fn length(&mut self) -> u64
        ensures { (0 < result) × (result ≤ 256) }
    {
        match self.draw(16) {
            0 => 256,
            1 => 1 + self.draw(256),
            _ => 1 + self.draw(24),
        }
    }
}

// How many symbols there is room for.
pub const SYMBOLS: usize = 257;

// A received sample; its second coordinate is left out for PAM.
// It is not `capture::QuadratureSample`: what the trials are made of is not the library's, so that a fault there cannot hide itself here.
#[derive(Clone, Copy)]
pub struct Sample {
    pub i: i32,
    pub q: i32,
}

// The gains, weights and samples of symbols, in the lists that the frame call takes, as C has them. Memory is fixed throughout the project.
// They are not `line_call::SymbolLists`: what the trials are made of is not the library's, so that a fault there cannot hide itself here.
#[derive(Drop)]
pub struct Symbols {
    pub gains: [u16; SYMBOLS],
    pub weights: [u16; SYMBOLS],
    pub yi: [i32; SYMBOLS],
    pub yq: [i32; SYMBOLS],
}

impl Symbols {
    // Symbols of one gain, one sample and weight 1.
    pub fn all(gain: u16, sample: Sample) -> Symbols
        ensures gains { result.gains ≡ replicate 257 gain }
        ensures weights { result.weights ≡ replicate 257 1 }
        ensures in_phase { result.yi ≡ replicate 257 sample.i }
        ensures quadrature { result.yq ≡ replicate 257 sample.q }
    {
        Symbols {
            gains: [gain; SYMBOLS],
            weights: [1; SYMBOLS],
            yi: [sample.i; SYMBOLS],
            yq: [sample.q; SYMBOLS],
        }
    }
}

// The largest size of a coordinate.
const MAX_SIZE: u64 = 1048576;

// Directions in which two neighbours of some PSK cost the same, at 0, 22.5, 45, 67.5 and 90 degrees; the rounded points of 16-PSK put the second at the slope
// 1223 / 2953, which is (16069 − 13623) / (9102 − 3196).
const DIRECTIONS: [(u64, u64); 5] = [
    (2953, 0),
    (2953, 1223),
    (2953, 2953),
    (1223, 2953),
    (0, 2953),
];

// From which ranges numbers are drawn: fine ones are small, so that many soft values round a half; wide ones are any, and often an end of their range.
// Which it is is drawn too, so it is an enum, on which each number's function has a match of two arms.
#[derive(Clone, Copy)]
pub enum Numbers {
    Fine,
    Wide,
}

// What is drawn of a frame: its modulation, how many weights it has, and what its numbers are.
#[derive(Clone, Copy)]
pub struct Plan {
    pub modulation: Modulation,
    pub weighting: Weighting,
    pub numbers: Numbers,
}

impl Plan {
    pub fn draw(modulation: Modulation, weighting: Weighting, random: &mut Lehmer) -> Plan {
        Plan {
            modulation,
            weighting,
            numbers: match random.draw(3) {
                0 => Numbers::Fine,
                _ => Numbers::Wide,
            },
        }
    }

    // How many symbols a frame is to have whose words have at most 12 bits.
    pub fn few(self, random: &mut Lehmer) -> usize {
        let bits = self.modulation.bits().max(1) as u64;
        (1 + random.draw(13 - bits) / bits) as usize
    }

    // A frame of so many symbols, of which the last has at least one payload bit.
    pub fn extent(self, symbols: usize, random: &mut Lehmer) -> Extent
        ensures { (result.symbols ≡ symbols) × (1 ≤ result.bits_used) }
    {
        let bits = self.modulation.bits().max(1) as u64;
        Extent {
            modulation: self.modulation,
            weighting: self.weighting,
            symbols,
            bits_used: 1 + random.draw(bits) as usize,
        }
    }

    // A header of a payload, with a weight if it is one for all symbols, a shift and a limit.
    pub fn header(self, payload: u16, random: &mut Lehmer) -> Header {
        let weight = match self.weighting {
            Weighting::OneForAll => self.weight(random),
            Weighting::OneForEach => 0,
        };
        let shift = self.shift(random);
        let limit = match random.draw(4) {
            0 => 127,
            1 => 1 + random.draw(32767) as u16,
            _ => 32767,
        };
        Header {
            weight,
            shift,
            limit,
            ..plain_header(Setup::from(self.modulation).with(self.weighting), payload)
        }
    }

    fn weight(self, random: &mut Lehmer) -> u16 {
        match self.numbers {
            Numbers::Fine => 1 + random.draw(8) as u16,
            Numbers::Wide => match random.draw(4) {
                0 => 1,
                1 => 4095,
                _ => 1 + random.draw(4095) as u16,
            },
        }
    }

    fn shift(self, random: &mut Lehmer) -> u8 {
        match self.numbers {
            Numbers::Fine => random.draw(8) as u8,
            Numbers::Wide => match random.draw(4) {
                0 => random.draw(41) as u8,
                1 => 40,
                _ => random.draw(24) as u8,
            },
        }
    }

    // Gains and samples of so many symbols, and 0 for the others; then weights, if there is one for each.
    pub fn symbols(self, count: usize, random: &mut Lehmer) -> Symbols {
        let mut symbols = Symbols::all(0, Sample { i: 0, q: 0 });
        let lists = symbols.gains.iter_mut().zip(&mut symbols.yi);
        for ((gain, yi), yq) in lists.zip(&mut symbols.yq).take(count) {
            *gain = self.gain(random);
            let sample = self.sample(*gain, random);
            *yi = sample.i;
            *yq = sample.q;
        }
        for weight in symbols
            .weights
            .iter_mut()
            .take(self.weighting.weights(count))
        {
            *weight = self.weight(random);
        }
        symbols
    }

    fn gain(self, random: &mut Lehmer) -> u16 {
        match self.numbers {
            Numbers::Fine => random.draw(8) as u16,
            Numbers::Wide => match random.draw(8) {
                0 => 0,
                1 => 1,
                2 => 4095,
                3 | 4 => random.draw(16) as u16,
                _ => random.draw(4096) as u16,
            },
        }
    }

    fn sample(self, gain: u16, random: &mut Lehmer) -> Sample {
        let (i, q) = match self.modulation {
            Modulation::Psk(_) => self.phase(random),
            _ => self.levels(gain, random),
        };
        let i = signed(i, random);
        let q = signed(q, random);
        Sample { i, q }
    }

    // The sizes of the coordinates of a sample on two axes.
    fn levels(self, gain: u16, random: &mut Lehmer) -> (u64, u64) {
        let (bits_i, bits_q) = self.modulation.axes();
        let i = self.level(bits_i, gain, random);
        let q = self.level(bits_q, gain, random);
        (i, q)
    }

    // The size of a coordinate of an axis: often a level or a midpoint of two, or one step beside it.
    fn level(self, bits: Bits, gain: u16, random: &mut Lehmer) -> u64 {
        match self.numbers {
            Numbers::Fine => random.draw(64),
            Numbers::Wide if random.draw(4) == 0 => size(random),
            Numbers::Wide => {
                let steps = random.draw(bits.count() as u64 + 2);
                beside(u64::from(gain) * steps, random)
            }
        }
    }

    // The sizes of the coordinates of a sample of PSK: often in a direction in which two points of some PSK cost the same, or one step beside it. Fine ones
    // are small, or multiples of 4096, since costs are in units of 1/16384.
    fn phase(self, random: &mut Lehmer) -> (u64, u64) {
        match self.numbers {
            Numbers::Fine => {
                let i = fine(random);
                let q = fine(random);
                (i, q)
            }
            Numbers::Wide if random.draw(4) == 0 => {
                let i = size(random);
                let q = size(random);
                (i, q)
            }
            Numbers::Wide => {
                let (i, q) = DIRECTIONS[random.draw(5) as usize];
                let times = random.draw(356);
                let i = beside(i.saturating_mul(times), random);
                let q = beside(q.saturating_mul(times), random);
                (i, q)
            }
        }
    }
}

fn fine(random: &mut Lehmer) -> u64 {
    if random.draw(2) == 0 {
        random.draw(64)
    } else {
        4096 * random.draw(8)
    }
}

// The size of a coordinate: an end of the range, small, or any.
fn size(random: &mut Lehmer) -> u64 {
    match random.draw(4) {
        0 => MAX_SIZE - random.draw(2),
        1 => random.draw(64),
        _ => random.draw(MAX_SIZE + 1),
    }
}

// A size, or the next smaller or larger one.
fn beside(size: u64, random: &mut Lehmer) -> u64 {
    match random.draw(4) {
        0 => size.saturating_add(1),
        1 => size.saturating_sub(1),
        _ => size,
    }
}

// A coordinate of a size, or at the end of the range if that is beyond, with either sign.
fn signed(size: u64, random: &mut Lehmer) -> i32
    ensures { unsigned_abs result ≤ 1048576 }
{
    let y = size.min(MAX_SIZE) as i32;
    if random.draw(2) == 0 { y } else { -y }
}
