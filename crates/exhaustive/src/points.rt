// Label, cost and noise-free sample of each point (REQUIREMENTS, "Points and labels", "Cellular labels" and "Cost of a point").
ghost use Rattle.std.specs.Prelude.{◌≤◌};

use crate::Symbol;
use crate::modulations::Bits;

// Points that are searched together: the levels of an axis, all pairs of the levels of two, counted through in quadrature first, or the points of PSK.
#[derive(Clone, Copy)]
pub enum Points {
    Levels(Axis),
    Grid(Axis, Axis),
    Circle(Bits),
}

impl Points {
    // How many they are.
    pub fn count(self) -> usize
        ensures { (1 ≤ result) × (result ≤ 4096) }
    {
        match self {
            Points::Levels(axis) => axis.bits.count(),
            Points::Grid(i, q) => i.bits.count() * q.bits.count(),
            Points::Circle(bits) => bits.count(),
        }
    }

    // The points that are probed together, in the order of their probes: each axis by itself.
    pub fn parts(self) -> [Option<Points>; 2] {
        match self {
            Points::Grid(i, q) => [Some(Points::Levels(i)), Some(Points::Levels(q))],
            _ => [Some(self), None],
        }
    }

    // How many of them are probed.
    pub fn probes(self) -> usize
        ensures { result ≤ 14 }
    {
        match self {
            Points::Levels(axis) => usize::from(axis.bits.number) + 1,
            Points::Grid(i, q) => usize::from(i.bits.number) + usize::from(q.bits.number) + 2,
            Points::Circle(bits) => usize::from(bits.number) + 1,
        }
    }

    // The label of an index as a number, the first bit sent as the most significant; of an axis the bits that it has of that label, and the others 0.
    pub fn label(self, index: usize) -> usize {
        match self {
            Points::Levels(axis) => axis.label(index),
            Points::Grid(i, q) => {
                let (k, l) = q.split(index);
                i.label(k) | q.label(l)
            }
            Points::Circle(_) => gray_label(index),
        }
    }

    // The cost of an index.
    pub fn cost(self, symbol: &Symbol, index: usize) -> i64 {
        match self {
            Points::Levels(axis) => axis.cost(symbol, index),
            Points::Grid(i, q) => {
                let (k, l) = q.split(index);
                i.cost(symbol, k).saturating_add(q.cost(symbol, l))
            }
            Points::Circle(bits) => Direction::of(bits, index).cost(symbol),
        }
    }

    // The sample that is sent for an index at gain 1.
    pub fn sample(self, index: usize) -> (i32, i32) {
        match self {
            Points::Levels(axis) => match axis.side {
                Side::InPhase => (axis.level(index), 0),
                Side::Quadrature => (0, axis.level(index)),
            },
            Points::Grid(i, q) => {
                let (k, l) = q.split(index);
                (i.level(k), q.level(l))
            }
            Points::Circle(bits) => {
                let point = Direction::of(bits, index);
                (point.u, point.v)
            }
        }
    }
}

// An axis: which coordinate lies on it, its bits, and the labels of its levels.
#[derive(Clone, Copy)]
pub struct Axis {
    pub side: Side,
    pub bits: Bits,
    pub labels: Labels,
}

#[derive(Clone, Copy)]
pub enum Side {
    InPhase,
    Quadrature,
}

// Labels of levels: Gray labels, behind which the symbol's label has so many bits of another axis, or cellular ones.
#[derive(Clone, Copy)]
pub enum Labels {
    Gray { behind: Bits },
    Cellular,
}

impl Axis {
    pub(crate) fn on(side: Side, bits: Bits, labels: Labels) -> Axis {
        Axis { side, bits, labels }
    }

    // The indices in phase and in quadrature of an index of a grid, of which this is the quadrature axis.
    fn split(self, index: usize) -> (usize, usize) {
        let levels = self.bits.count();
        (index / levels, index % levels)
    }

    // The label of an index. A cellular label is the Gray label with every bit turned round; its bits have the places 0, 2 and 4 of the symbol's label in
    // phase, and 1, 3 and 5 in quadrature.
    fn label(self, index: usize) -> usize {
        match self.labels {
            Labels::Gray { behind } => gray_label(index) << behind.number,
            Labels::Cellular => {
                let bits = spread(gray_label(index) ^ (self.bits.count() - 1));
                match self.side {
                    Side::InPhase => 2 * bits,
                    Side::Quadrature => bits,
                }
            }
        }
    }

    // The level of an index, a = 2k − (2^m − 1).
    fn level(self, index: usize) -> i32 {
        2 * (index % 64) as i32 - (self.bits.count() as i32 - 1)
    }

    // (y − g·a)².
    fn cost(self, symbol: &Symbol, index: usize) -> i64 {
        let y = match self.side {
            Side::InPhase => symbol.yi,
            Side::Quadrature => symbol.yq,
        };
        let error = y.saturating_sub(symbol.gain.saturating_mul(i64::from(self.level(index))));
        error.saturating_mul(error)
    }
}

// The label of an index: each binary digit exclusive-or the one before it.
fn gray_label(index: usize) -> usize {
    index ^ (index / 2)
}

// The bits of a label, of which there are up to 3, with a place left free before each.
fn spread(label: usize) -> usize
    ensures { result ≤ 21 }
{
    label % 2 + 4 * (label / 2 % 2) + 16 * (label / 4 % 2)
}

// A point of PSK, in units of 1/16384.
#[derive(Clone, Copy)]
struct Direction {
    u: i32,
    v: i32,
}

impl Direction {
    // The point of an index.
    fn of(bits: Bits, index: usize) -> Direction {
        let quarter = (bits.count() / 4).max(1);
        let first = Direction::first(bits, index % quarter);
        if bits.number < 2 {
            first.turned(2 * (index % 2))
        } else {
            first.turned(index / quarter % 4)
        }
    }

    // The points of the first quarter of the circle; of half a circle for 1 bit.
    fn first(bits: Bits, index: usize) -> Direction {
        let (u, v) = match (bits.number, index) {
            (1, _) => (0, 16384),
            (2, _) => (11585, 11585),
            (3, 0) => (15137, 6270),
            (3, _) => (6270, 15137),
            (_, 0) => (16069, 3196),
            (_, 1) => (13623, 9102),
            (_, 2) => (9102, 13623),
            _ => (3196, 16069),
        };
        Direction { u, v }
    }

    // The point turned by so many quarters of the circle.
    fn turned(self, quarters: usize) -> Direction {
        let Direction { u, v } = self;
        let (u, v) = match quarters {
            0 => (u, v),
            1 => (v.wrapping_neg(), u),
            2 => (u.wrapping_neg(), v.wrapping_neg()),
            _ => (v, u.wrapping_neg()),
        };
        Direction { u, v }
    }

    // −2g·(yi·u + yq·v).
    fn cost(self, symbol: &Symbol) -> i64 {
        let along = symbol.yi.saturating_mul(i64::from(self.u));
        let across = symbol.yq.saturating_mul(i64::from(self.v));
        symbol
            .gain
            .saturating_mul(-2)
            .saturating_mul(along.saturating_add(across))
    }
}
