// What each modulation is (REQUIREMENTS, "Points and labels" and "Cellular labels"). This is the one place that goes by the modulation.
ghost use Rattle.std.specs.Prelude.{◌≡◌, ◌≤◌, min};

use crate::points::{Axis, Labels, Points, Side};
use crate::weights::{WEIGHTED, Weighting};
use std::fmt;

// The bits of an axis or of a phase.
#[derive(Clone, Copy, PartialEq, Eq)]
pub struct Bits {
    pub number: u8,
    ghost within: { number ≤ 6 },
}

impl Bits {
    pub const NONE: Bits = Bits { number: 0 };

    // So many, or 6 where they are more.
    fn at_most_six(number: usize) -> Bits
        ensures { result.number ≡ min number 6 }
    {
        Bits {
            number: number.min(6) as u8,
        }
    }

    // How many points they number.
    pub fn count(self) -> usize
        ensures { (1 ≤ result) × (result ≤ 64) }
    {
        1 << self.number
    }
}

// A modulation: PAM and PSK with the bits of a symbol, QAM with those of its two axes, and QAM with cellular labels with those of either axis.
#[derive(Clone, Copy, PartialEq, Eq)]
pub enum Modulation {
    Pam(Bits),
    Qam(Bits, Bits),
    Psk(Bits),
    Cellular(Bits),
}

// The numbers of a header that say which modulation a frame has: the kind, with 80 hexadecimal added where each symbol has a weight, the bits of a symbol or of
// its in-phase axis, and those of its quadrature axis, 0 if it has none. They are bytes as C hands them over, of which every value is an input with an answer.
#[derive(Clone, Copy)]
pub struct Setup {
    pub kind: u8,
    pub bits_i: u8,
    pub bits_q: u8,
}

impl Setup {
    // How many weights a frame has.
    pub fn weighting(self) -> Weighting {
        Weighting::of_kind(self.kind)
    }

    // The kind, of the number without what is added for weights.
    pub fn plain_kind(self) -> Result<Kind, NoModulation> {
        Kind::try_from(self.kind % WEIGHTED)
    }

    // The same modulation, of frames with so many weights.
    pub fn with(self, weighting: Weighting) -> Setup {
        let kind = self.kind % WEIGHTED;
        Setup {
            kind: match weighting {
                Weighting::OneForAll => kind,
                Weighting::OneForEach => kind + WEIGHTED,
            },
            ..self
        }
    }
}

// The kinds of modulations, in the order of their numbers.
#[derive(Clone, Copy, PartialEq, Eq)]
pub enum Kind {
    Pam,
    Qam,
    Psk,
    Cellular,
}

// How many kinds there are, counted from 0.
pub const KINDS: u8 = Kind::Cellular as u8 + 1;

impl TryFrom<u8> for Kind {
    type Error = NoModulation;

    fn try_from(number: u8) -> Result<Kind, NoModulation> {
        match number {
            0 => Ok(Kind::Pam),
            1 => Ok(Kind::Qam),
            2 => Ok(Kind::Psk),
            3 => Ok(Kind::Cellular),
            _ => Err(NoModulation::Kind),
        }
    }
}

impl From<Modulation> for Kind {
    fn from(modulation: Modulation) -> Kind {
        match modulation {
            Modulation::Pam(_) => Kind::Pam,
            Modulation::Qam(_, _) => Kind::Qam,
            Modulation::Psk(_) => Kind::Psk,
            Modulation::Cellular(_) => Kind::Cellular,
        }
    }
}

// Why numbers stand for no modulation: no kind has the number, or the kind has no such bits.
#[derive(Clone, Copy, PartialEq, Eq)]
pub enum NoModulation {
    Kind,
    Bits,
}

impl TryFrom<Setup> for Modulation {
    type Error = NoModulation;

    fn try_from(setup: Setup) -> Result<Modulation, NoModulation> {
        let (i, q) = (setup.bits_i, setup.bits_q);
        match (setup.plain_kind()?, i, q) {
            (Kind::Pam, 1..=6, 0) => Ok(Modulation::Pam(Bits { number: i })),
            (Kind::Qam, 1..=6, 1..=6) => {
                Ok(Modulation::Qam(Bits { number: i }, Bits { number: q }))
            }
            (Kind::Psk, 1..=4, 0) => Ok(Modulation::Psk(Bits { number: i })),
            (Kind::Cellular, 1..=3, _) if q == i => Ok(Modulation::Cellular(Bits { number: i })),
            _ => Err(NoModulation::Bits),
        }
    }
}

impl From<Modulation> for Setup {
    fn from(modulation: Modulation) -> Setup {
        let (i, q) = modulation.axes();
        Setup {
            kind: Kind::from(modulation) as u8,
            bits_i: i.number,
            bits_q: q.number,
        }
    }
}

impl Modulation {
    // The modulation of these numbers, of any size. What is made of numbers that stand for none, which are refused, does not matter: TryFrom tells them apart.
    pub fn of_numbers(kind: u8, bits_i: usize, bits_q: usize) -> Modulation {
        let i = Bits::at_most_six(bits_i);
        match kind {
            0 => Modulation::Pam(i),
            1 => Modulation::Qam(i, Bits::at_most_six(bits_q)),
            2 => Modulation::Psk(i),
            _ => Modulation::Cellular(i),
        }
    }

    // All points of a symbol.
    pub fn points(self) -> Points {
        match self {
            Modulation::Pam(bits) => {
                let labels = Labels::Gray { behind: Bits::NONE };
                Points::Levels(Axis::on(Side::InPhase, bits, labels))
            }
            Modulation::Qam(i, q) => {
                let labels = Labels::Gray { behind: Bits::NONE };
                Points::Grid(
                    Axis::on(Side::InPhase, i, Labels::Gray { behind: q }),
                    Axis::on(Side::Quadrature, q, labels),
                )
            }
            Modulation::Psk(bits) => Points::Circle(bits),
            Modulation::Cellular(bits) => Points::Grid(
                Axis::on(Side::InPhase, bits, Labels::Cellular),
                Axis::on(Side::Quadrature, bits, Labels::Cellular),
            ),
        }
    }

    // The bits of a symbol or of its in-phase axis, and those of its quadrature axis, none if it has none.
    pub fn axes(self) -> (Bits, Bits) {
        match self {
            Modulation::Pam(bits) | Modulation::Psk(bits) => (bits, Bits::NONE),
            Modulation::Qam(i, q) => (i, q),
            Modulation::Cellular(bits) => (bits, bits),
        }
    }

    // The bits of a symbol.
    pub fn bits(self) -> usize
        ensures { result ≤ 12 }
    {
        let (i, q) = self.axes();
        usize::from(i.number) + usize::from(q.number)
    }

    // e: costs are in units of 1/2^e.
    pub fn scale(self) -> u32
        ensures { result ≤ 14 }
    {
        match self {
            Modulation::Psk(_) => 14,
            _ => 0,
        }
    }

    // Whether a sample has a quadrature coordinate.
    pub fn has_quadrature(self) -> bool {
        !matches!(self, Modulation::Pam(_))
    }
}

// In a column of 7 characters, as PAM 3 or QAM 2+2; CEL is QAM with cellular labels.
impl fmt::Display for Modulation {
    fn fmt<W: fmt::Write>(&self, f: &mut fmt::Formatter<W>) -> fmt::Result {
        match *self {
            Modulation::Pam(bits) => write!(f, "PAM {}  ", bits.number),
            Modulation::Qam(i, q) => write!(f, "QAM {}+{}", i.number, q.number),
            Modulation::Psk(bits) => write!(f, "PSK {}  ", bits.number),
            Modulation::Cellular(bits) => {
                let number = bits.number;
                write!(f, "CEL {number}+{number}")
            }
        }
    }
}
