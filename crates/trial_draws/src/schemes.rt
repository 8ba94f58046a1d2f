// The modulations, one after the other, how long a frame is, and headers of frames.
ghost use Rattle.std.specs.Prelude.{◌≡◌, ◌+◌, ◌-◌, ◌*◌, ◌≤◌};

use exhaustive::modulations::{KINDS, Modulation, Setup};
use exhaustive::weights::Weighting;
use frame::Header;

// How many setups are counted through: each kind with 0 to 6 bits on either axis, of which some are no modulations. They are one range of numbers, since no
// function can hand out a chain over three.
pub const SETUPS: u8 = 49 * KINDS;

// One of them, counted from 0.
pub fn setup_at(n: usize) -> Setup {
    Setup {
        kind: (n / 49 % 256) as u8,
        bits_i: (n / 7 % 7) as u8,
        bits_q: (n % 7) as u8,
    }
}

// Its modulation, if it is one.
pub fn modulation_at(n: u8) -> Option<Modulation> {
    Modulation::try_from(setup_at(usize::from(n))).ok()
}

// The header of a frame with weight 1, shift 0 and the largest limit.
pub fn plain_header(setup: Setup, payload: u16) -> Header
    ensures { (result.payload ≡ payload) × (result.weight ≡ 1) × (result.shift ≡ 0) × (result.limit ≡ 32767) }
{
    Header {
        kind: setup.kind,
        bits_i: setup.bits_i,
        bits_q: setup.bits_q,
        payload,
        weight: 1,
        shift: 0,
        limit: 32767,
    }
}

// How long a frame is: its modulation, how many weights and how many symbols it has, and how many payload bits the last of them has.
#[derive(Clone, Copy)]
pub struct Extent {
    pub modulation: Modulation,
    pub weighting: Weighting,
    pub symbols: usize,
    pub bits_used: usize,
}

impl Extent {
    // The payload.
    pub fn payload(self) -> u16
        ensures { result ≤ (self.symbols - 1) * 12 + self.bits_used }
    {
        let payload = self
            .symbols
            .saturating_sub(1)
            .saturating_mul(self.modulation.bits())
            .saturating_add(self.bits_used);
        u16::try_from(payload).unwrap_or(u16::MAX)
    }

    // How many quadrature coordinates it has.
    pub fn quadratures(self) -> usize
        ensures { result ≤ self.symbols }
    {
        let has_quadrature = self.modulation.has_quadrature();
        if has_quadrature { self.symbols } else { 0 }
    }

    // How many entries its list of weights has.
    pub fn weights(self) -> usize
        ensures { result ≤ self.symbols }
    {
        self.weighting.weights(self.symbols)
    }

    // Its header with weight 1, or 0 if each symbol has its own, shift 0 and the largest limit.
    pub fn header(self) -> Header
        ensures { (result.shift ≡ 0) × (result.limit ≡ 32767) }
    {
        let header = self.plain_header();
        match self.weighting {
            Weighting::OneForAll => header,
            Weighting::OneForEach => Header {
                kind: Setup::from(self.modulation).with(self.weighting).kind,
                weight: 0,
                ..header
            },
        }
    }

    // The header of a frame of the same length with one weight for all symbols.
    fn plain_header(self) -> Header
        ensures { (result.weight ≡ 1) × (result.shift ≡ 0) × (result.limit ≡ 32767) }
    {
        plain_header(Setup::from(self.modulation), self.payload())
    }
}
