// The edges of all ranges: what lies just inside is served, what lies just outside is refused by its number, in the order of REQUIREMENTS, "Refusals".
ghost use Rattle.std.specs.Prelude.{◌≤◌};

use exhaustive::modulations::{KINDS, Kind, Modulation, Setup};
use exhaustive::weights::Weighting;
use frame::{Fault, Header, Refusal, Room};
use std::io;
use trial_draws::draws::{Lehmer, Numbers, Plan, SYMBOLS, Sample, Symbols};
use trial_draws::schemes::{Extent, SETUPS, modulation_at, plain_header};
use trial_draws::tally::Tally;
use trial_frames::answers::Wanted;
use trial_frames::calls::{Call, Lent};
use trial_frames::judge::Judge;

// Tries all of them for every modulation, with one weight for all symbols.
pub fn try_edges(rt: &impl Print) -> io::Result<Tally> {
    let mut tally = try_numbers(rt)? + try_kinds(rt, &KIND_NUMBERS)?;
    let mut random = Lehmer::new(1959);
    for modulation in (0..SETUPS).filter_map(modulation_at) {
        let edges = Edges {
            rt,
            modulation,
            weighting: Weighting::OneForAll,
        };
        tally += edges.try_settings(&SETTINGS)?;
        tally += edges.try_lengths(&LENGTHS, &mut random)?;
        tally += edges.try_lasts()?;
        tally += edges.try_two_faults()?;
    }
    Ok(tally)
}

// The refusals that are tried, with their numbers (REQUIREMENTS, "Refusals").
const NUMBERS: [(Refusal, u8); 11] = [
    (Refusal::Kind, 4),
    (Refusal::BitsPerSymbol, 5),
    (Refusal::Payload, 6),
    (Refusal::Weight, 7),
    (Refusal::Shift, 8),
    (Refusal::Limit, 9),
    (Refusal::Gain, 10),
    (Refusal::Sample, 11),
    (Refusal::OutputTooShort, 15),
    (Refusal::InputLength, 16),
    (Refusal::HeaderWeight, 18),
];

fn try_numbers(rt: &impl Print) -> io::Result<Tally> {
    let mut judge = Judge::new(rt);
    for (at, (refusal, number)) in NUMBERS.iter().enumerate() {
        judge.entry("number of refusal", at, &u8::from(*refusal), number)?;
    }
    Ok(Tally {
        wrong: judge.wrong,
        ..Tally::default()
    })
}

// Tries one frame.
fn try_call(rt: &impl Print, call: Call<'_>, wanted: Wanted) -> io::Result<Tally> {
    Ok(Tally {
        frames: 1,
        wrong: call.wrong(rt, wanted)?,
        ..Tally::default()
    })
}

// Kind numbers that are tried: those of the kinds, the one above the last, and the largest.
const KIND_NUMBERS: [u8; 6] = [0, 1, 2, 3, KINDS, 255];

// Numbers of bits that are tried with each of them, on either axis.
const BIT_NUMBERS: [u8; 10] = [0, 1, 2, 3, 4, 5, 6, 7, 8, 255];

// Where such numbers stand for no modulation, a refusal is wanted in place of what a search finds. The header's weight is that of its kind.
pub fn try_kinds(rt: &impl Print, kinds: &[u8]) -> io::Result<Tally> {
    let mut tally = Tally::default();
    for kind in kinds {
        for bits_i in BIT_NUMBERS {
            for bits_q in BIT_NUMBERS {
                let setup = Setup {
                    kind: *kind,
                    bits_i,
                    bits_q,
                };
                tally += try_header(rt, header_of(setup), Wanted::Points)?;
            }
        }
    }
    Ok(tally)
}

// A header with one payload bit, and with the weight 0 if each symbol has its own.
fn header_of(setup: Setup) -> Header {
    let header = plain_header(setup, 1);
    match setup.weighting() {
        Weighting::OneForAll => header,
        Weighting::OneForEach => Header {
            weight: 0,
            ..header
        },
    }
}

// A header with one symbol, of which PAM has no quadrature coordinate.
fn try_header(rt: &impl Print, header: Header, wanted: Wanted) -> io::Result<Tally> {
    let symbols = Symbols::all(3, Sample { i: -5, q: 4 });
    let setup = Setup {
        kind: header.kind,
        bits_i: header.bits_i,
        bits_q: header.bits_q,
    };
    let quadratures = match setup.plain_kind() {
        Ok(Kind::Pam) => 0,
        _ => 1,
    };
    let lent = Lent::ample(1, setup.weighting().weights(1), quadratures);
    try_call(rt, Call::new(header, lent, &symbols), wanted)
}

// Payload, weight, shift and limit of a header, and what they are refused by, if they are: a tuple, so that each case is a line of its table.
pub type Setting = (u16, u16, u8, u16, Option<Refusal>);

// The ends of the ranges, and two of them broken at once.
const SETTINGS: [Setting; 14] = [
    (0, 1, 0, 1, Some(Refusal::Payload)),
    (0, 0, 41, 0, Some(Refusal::Payload)),
    (1, 0, 0, 1, Some(Refusal::Weight)),
    (1, 0, 41, 0, Some(Refusal::Weight)),
    (1, 4095, 0, 1, None),
    (1, 4096, 0, 1, Some(Refusal::Weight)),
    (1, 65535, 255, 65535, Some(Refusal::Weight)),
    (1, 1, 40, 1, None),
    (1, 1, 41, 1, Some(Refusal::Shift)),
    (1, 1, 255, 0, Some(Refusal::Shift)),
    (1, 1, 0, 0, Some(Refusal::Limit)),
    (1, 1, 0, 32767, None),
    (1, 1, 0, 32768, Some(Refusal::Limit)),
    (1, 1, 0, 65535, Some(Refusal::Limit)),
];

// What is tried of a modulation, with how many weights, and where wrong entries are printed.
#[derive(Drop)]
pub struct Edges<'a, R: Print> {
    pub rt: &'a R,
    pub modulation: Modulation,
    pub weighting: Weighting,
}

impl<R: Print> Edges<'_, R> {
    pub fn try_settings(&self, settings: &[Setting]) -> io::Result<Tally> {
        let mut tally = Tally::default();
        let setup = Setup::from(self.modulation).with(self.weighting);
        for (payload, weight, shift, limit, refusal) in settings.iter().copied() {
            let header = Header {
                weight,
                shift,
                limit,
                ..plain_header(setup, payload)
            };
            let wanted = Wanted::from(refusal.map(Fault::from));
            tally += try_header(self.rt, header, wanted)?;
        }
        Ok(tally)
    }

    // The longest frame, one with a bit more, and a short one with an input or a buffer that is an entry too short or too long.
    pub fn try_lengths(&self, lengths: &[Length], random: &mut Lehmer) -> io::Result<Tally> {
        let plan = Plan {
            modulation: self.modulation,
            weighting: self.weighting,
            numbers: Numbers::Wide,
        };
        let symbols = plan.symbols(SYMBOLS, random);
        let longest = self.extent(256, self.modulation.bits());
        let longer = self.extent(257, 1);
        let refused = Wanted::Refusal(Fault::from(Refusal::Payload));
        let mut tally = self.try_extent(longest, exact(longest), Wanted::Points, &symbols)?;
        tally += self.try_extent(longer, exact(longer), refused, &symbols)?;
        for length in lengths.iter().copied() {
            for change in CHANGES {
                tally += self.try_misfit(Misfit { length, change }, None, &symbols)?;
            }
        }
        Ok(tally)
    }

    // A frame of so many symbols, the last of which has `bits_used` payload bits.
    fn extent(&self, symbols: usize, bits_used: usize) -> Extent {
        Extent {
            modulation: self.modulation,
            weighting: self.weighting,
            symbols,
            bits_used,
        }
    }

    // A frame of an extent, of which so much is lent.
    fn try_extent(
        &self,
        extent: Extent,
        lent: Lent,
        wanted: Wanted,
        symbols: &Symbols,
    ) -> io::Result<Tally> {
        let call = Call::new(extent.header(), lent, symbols);
        try_call(self.rt, call, wanted)
    }

    // A frame of 3 symbols, the first of which may be at fault, with one of its lengths changed; PAM has no quadrature coordinate that could be missing.
    pub fn try_misfit(
        &self,
        misfit: Misfit,
        fault: Option<Refusal>,
        symbols: &Symbols,
    ) -> io::Result<Tally> {
        let has_coordinate = self.modulation.has_quadrature() || misfit.change == Change::More;
        if misfit.length == Length::Quadrature && !has_coordinate {
            return Ok(Tally::default());
        }
        let extent = self.extent(3, 1);
        let wanted = Wanted::from(misfit.refusal().or(fault).map(Fault::from));
        self.try_extent(extent, misfit.of(exact(extent)), wanted, symbols)
    }

    // A frame of 3 symbols with so many weights, which are not as many as it has.
    pub fn try_list(&self, weights: usize) -> io::Result<Tally> {
        let extent = self.extent(3, 1);
        let lent = Lent {
            weights,
            ..exact(extent)
        };
        let refused = Wanted::Refusal(Fault::from(Refusal::InputLength));
        self.try_extent(extent, lent, refused, &usual())
    }

    pub fn try_lasts(&self) -> io::Result<Tally> {
        let mut tally = Tally::default();
        for last in ENDS {
            tally += self.try_last(1, 1, last)?;
        }
        for last in FAULTS {
            tally += self.try_last(256, 1, last)?;
        }
        if self.modulation.has_quadrature() {
            for last in QUADRATURE_FAULTS {
                tally += self.try_last(256, 1, last)?;
            }
        }
        Ok(tally)
    }

    // A frame of so many symbols whose last has this weight, gain and sample; a refusal is to name it.
    pub fn try_last(&self, count: u16, weight: u16, last: Last) -> io::Result<Tally>
        requires { (1 ≤ count) × (count ≤ 256) }
    {
        let (gain, i, q, refusal) = last;
        let symbol = count - 1;
        let mut symbols = usual();
        symbols.gains[usize::from(symbol)] = gain;
        symbols.weights[usize::from(symbol)] = weight;
        symbols.yi[usize::from(symbol)] = i;
        symbols.yq[usize::from(symbol)] = q;
        let wanted = Wanted::from(refusal.map(|refusal| Fault { refusal, symbol }));
        self.try_unpadded(usize::from(count), wanted, &symbols)
    }

    // Two symbols at fault: the first is named, whatever its fault.
    pub fn try_two_faults(&self) -> io::Result<Tally> {
        let mut symbols = usual();
        symbols.gains[1] = 4096;
        symbols.yi[0] = 1048577;
        let refused = Wanted::Refusal(Fault::from(Refusal::Sample));
        self.try_unpadded(2, refused, &symbols)
    }

    // A frame of so many symbols without padding.
    pub fn try_unpadded(
        &self,
        count: usize,
        wanted: Wanted,
        symbols: &Symbols,
    ) -> io::Result<Tally> {
        let extent = self.extent(count, self.modulation.bits());
        let lent = Lent::ample(count, extent.weights(), extent.quadratures());
        self.try_extent(extent, lent, wanted, symbols)
    }
}

// Symbols with nothing at fault.
pub fn usual() -> Symbols {
    Symbols::all(5, Sample { i: -9, q: 31 })
}

// What a frame needs of gains, weights, in-phase and quadrature coordinates, and of the buffers.
fn exact(extent: Extent) -> Lent {
    let probes = extent.modulation.points().probes();
    let probes = extent.symbols.saturating_mul(probes);
    let bits = usize::from(extent.payload());
    Lent {
        gains: extent.symbols,
        weights: extent.weights(),
        yi: extent.symbols,
        yq: extent.quadratures(),
        room: Room {
            hard: bits,
            soft: bits,
            indices: probes,
            costs: probes,
        },
    }
}

// The lengths of what is lent, those of the input first.
#[derive(Clone, Copy, PartialEq, Eq)]
pub enum Length {
    Gains,
    Weights,
    InPhase,
    Quadrature,
    Hard,
    Soft,
    Indices,
    Costs,
}

// Those of a frame with one weight for all symbols.
pub const LENGTHS: [Length; 7] = [
    Length::Gains,
    Length::InPhase,
    Length::Quadrature,
    Length::Hard,
    Length::Soft,
    Length::Indices,
    Length::Costs,
];

// How one of them is changed: less by one; the same, with a gain too many; or more by one.
#[derive(Clone, Copy, PartialEq, Eq)]
pub enum Change {
    Less,
    LessWithGain,
    More,
}

pub const CHANGES: [Change; 3] = [Change::Less, Change::LessWithGain, Change::More];

impl Change {
    fn of(self, length: usize) -> usize {
        match self {
            Change::Less | Change::LessWithGain => length.saturating_sub(1),
            Change::More => length.saturating_add(1),
        }
    }
}

impl Length {
    // It, among the lengths of what is lent.
    fn of(self, lent: &mut Lent) -> &mut usize {
        match self {
            Length::Gains => &mut lent.gains,
            Length::Weights => &mut lent.weights,
            Length::InPhase => &mut lent.yi,
            Length::Quadrature => &mut lent.yq,
            Length::Hard => &mut lent.room.hard,
            Length::Soft => &mut lent.room.soft,
            Length::Indices => &mut lent.room.indices,
            Length::Costs => &mut lent.room.costs,
        }
    }
}

// A length that is changed, and how.
#[derive(Clone, Copy)]
pub struct Misfit {
    pub length: Length,
    pub change: Change,
}

impl Misfit {
    // What is lent of a frame of 3 symbols, with that length changed.
    fn of(self, exact: Lent) -> Lent {
        let mut lent = exact;
        let length = self.length.of(&mut lent);
        *length = self.change.of(*length);
        if self.change == Change::LessWithGain {
            lent.gains = 4;
        }
        lent
    }

    // An input of another length is refused, and so is a gain too many; a buffer may be longer, and a shorter one is refused.
    fn refusal(self) -> Option<Refusal> {
        match (self.length, self.change) {
            (Length::Gains | Length::Weights | Length::InPhase | Length::Quadrature, _)
            | (_, Change::LessWithGain) => Some(Refusal::InputLength),
            (_, Change::Less) => Some(Refusal::OutputTooShort),
            (_, Change::More) => None,
        }
    }
}

// The gain and the sample of the last symbol of a frame, and what it is refused by, if it is: a tuple for the same reason.
pub type Last = (u16, i32, i32, Option<Refusal>);

// The ends of the ranges of gain and sample, in a frame of one symbol.
const ENDS: [Last; 3] = [
    (4095, 1048576, 1048576, None),
    (4095, -1048576, -1048576, None),
    (0, 1048576, -1048576, None),
];

// In a frame of 256 symbols, gains out of range, alone and with a sample out of range, and samples out of range.
const FAULTS: [Last; 8] = [
    (4096, 0, 0, Some(Refusal::Gain)),
    (65535, 0, 0, Some(Refusal::Gain)),
    (4096, 1048577, 0, Some(Refusal::Gain)),
    (4096, 0, -1048577, Some(Refusal::Gain)),
    (4095, 1048577, 0, Some(Refusal::Sample)),
    (0, -1048577, 0, Some(Refusal::Sample)),
    (0, 2147483647, 0, Some(Refusal::Sample)),
    (0, -2147483648, 0, Some(Refusal::Sample)),
];

// The same in quadrature, which PAM has not.
const QUADRATURE_FAULTS: [Last; 2] = [
    (0, 0, 1048577, Some(Refusal::Sample)),
    (0, 0, -1048577, Some(Refusal::Sample)),
];
