// The mapping of cellular links: QPSK, 16QAM and 64QAM of 3GPP TS 36.211 (tables 7.1.2-1, 7.1.3-1 and 7.1.4-1), in the form in which TS 38.211 writes it (5.1.3
// to 5.1.5), without the factors that make the mean power 1. It goes from the bits of a word to its point, and knows no index and no label.
ghost use Rattle.std.specs.Prelude.{◌≤◌, unsigned_abs};

use exhaustive::modulations::Bits;
use exhaustive::tables::Place;
use trial_draws::draws::Sample;

// A word with 1, 2 or 3 bits on either axis, as a number. Its first bit, b0, is the most significant.
#[derive(Clone, Copy)]
pub struct Word {
    pub axis_bits: Bits,
    pub number: usize,
}

impl Word {
    // The sample that is sent for it at a gain.
    pub fn sample(self, gain: u16) -> Sample {
        Sample {
            i: self.coordinate(0, gain),
            q: self.coordinate(1, gain),
        }
    }

    // g·I or g·Q.
    fn coordinate(self, first: usize, gain: u16) -> i32
        requires { first ≤ 1 }
    {
        (i64::from(gain) * self.amplitude(first)) as i32
    }

    // I, which goes by b0, b2 and b4, or Q, which goes by b1, b3 and b5; `first` is 0 or 1, which is also the place of the axis's first bit. Each number of bits
    // has a formula of its own here, since the standard writes it so.
    fn amplitude(self, first: usize) -> i64
        requires { first ≤ 1 }
        ensures { unsigned_abs result ≤ 7 }
    {
        match self.axis_bits.number {
            1 => qpsk(self.bit(first)),
            2 => qam16(self.bit(first), self.bit(first + 2)),
            _ => qam64(self.bit(first), self.bit(first + 2), self.bit(first + 4)),
        }
    }

    fn bit(self, at: usize) -> bool {
        let bits = 2 * usize::from(self.axis_bits.number);
        Place { bits, at }.bit_of(self.number) == 1
    }
}

// 1 − 2b0.
fn qpsk(b0: bool) -> i64
    ensures { unsigned_abs result ≤ 1 }
{
    1 - 2 * i64::from(b0)
}

// (1 − 2b0)·(2 − (1 − 2b2)).
fn qam16(b0: bool, b2: bool) -> i64
    ensures { unsigned_abs result ≤ 3 }
{
    qpsk(b0) * (2 - qpsk(b2))
}

// (1 − 2b0)·(4 − (1 − 2b2)·(2 − (1 − 2b4))).
fn qam64(b0: bool, b2: bool, b4: bool) -> i64
    ensures { unsigned_abs result ≤ 7 }
{
    qpsk(b0) * (4 - qam16(b2, b4))
}
