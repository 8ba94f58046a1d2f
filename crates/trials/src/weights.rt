// The edges of weights: kinds with 80 hexadecimal added and the weight of their headers, lists of weights that are too short or too long, and weights out of their
// range, which are refused behind the gain of their symbol and before its sample.
use crate::edges::{CHANGES, Edges, Last, Length, Misfit, Setting, try_kinds, usual};
use exhaustive::weights::Weighting;
use frame::{Fault, Refusal};
use std::io;
use trial_draws::draws::Lehmer;
use trial_draws::schemes::{SETUPS, modulation_at};
use trial_draws::tally::Tally;
use trial_frames::answers::Wanted;

// Tries all of them for every modulation, and what is tried of one weight for all symbols.
pub fn try_weights(rt: &impl Print) -> io::Result<Tally> {
    let mut tally = try_kinds(rt, &KIND_NUMBERS)?;
    let mut random = Lehmer::new(1973);
    for modulation in (0..SETUPS).filter_map(modulation_at) {
        let plain = Edges {
            rt,
            modulation,
            weighting: Weighting::OneForAll,
        };
        tally += plain.try_lists(&[1, 3])?;
        let edges = Edges {
            rt,
            modulation,
            weighting: Weighting::OneForEach,
        };
        tally += edges.try_lists(&[0, 1])?;
        tally += edges.try_settings(&SETTINGS)?;
        tally += edges.try_lengths(&LENGTHS, &mut random)?;
        tally += edges.try_lasts()?;
        tally += edges.try_two_faults()?;
        tally += edges.try_last_weights()?;
        tally += edges.try_first_faults()?;
        tally += edges.try_order()?;
    }
    Ok(tally)
}

// Kind numbers that are tried: those of the kinds with 80 hexadecimal added, the one above the last, and the largest.
const KIND_NUMBERS: [u8; 6] = [0x80, 0x81, 0x82, 0x83, 0x84, 0xFF];

// The ends of the ranges of a header whose weight is to be 0, and two of them broken at once.
const SETTINGS: [Setting; 14] = [
    (0, 0, 0, 1, Some(Refusal::Payload)),
    (0, 1, 41, 0, Some(Refusal::Payload)),
    (1, 1, 0, 1, Some(Refusal::HeaderWeight)),
    (1, 1, 41, 0, Some(Refusal::HeaderWeight)),
    (1, 4095, 0, 1, Some(Refusal::HeaderWeight)),
    (1, 4096, 0, 1, Some(Refusal::HeaderWeight)),
    (1, 65535, 255, 65535, Some(Refusal::HeaderWeight)),
    (1, 0, 40, 1, None),
    (1, 0, 41, 1, Some(Refusal::Shift)),
    (1, 0, 255, 0, Some(Refusal::Shift)),
    (1, 0, 0, 0, Some(Refusal::Limit)),
    (1, 0, 0, 32767, None),
    (1, 0, 0, 32768, Some(Refusal::Limit)),
    (1, 0, 0, 65535, Some(Refusal::Limit)),
];

// The lengths of what is lent of a frame with a weight for each symbol.
const LENGTHS: [Length; 8] = [
    Length::Gains,
    Length::Weights,
    Length::InPhase,
    Length::Quadrature,
    Length::Hard,
    Length::Soft,
    Length::Indices,
    Length::Costs,
];

// A weight beside the gain and the sample of a symbol: a tuple, so that each case is a line of its table.
type Weighted = (u16, Last);

// The ends of the range of weights, in a frame of one symbol.
const ENDS: [Weighted; 3] = [
    (1, (4095, 1048576, 1048576, None)),
    (4095, (4095, 1048576, -1048576, None)),
    (4095, (0, -1048576, -1048576, None)),
];

// In a frame of 256 symbols, weights out of range, alone and with a gain or a sample out of range.
const FAULTS: [Weighted; 9] = [
    (0, (4095, 0, 0, Some(Refusal::Weight))),
    (4096, (4095, 0, 0, Some(Refusal::Weight))),
    (65535, (0, 0, 0, Some(Refusal::Weight))),
    (0, (4096, 0, 0, Some(Refusal::Gain))),
    (4096, (65535, 1048577, 0, Some(Refusal::Gain))),
    (0, (0, 1048577, 0, Some(Refusal::Weight))),
    (4096, (0, 0, -1048577, Some(Refusal::Weight))),
    (4095, (0, -1048577, 0, Some(Refusal::Sample))),
    (1, (0, 1048577, 0, Some(Refusal::Sample))),
];

// The same of a symbol behind which another has all three out of range.
const FIRST_FAULTS: [Weighted; 3] = [
    (1, (4096, 0, 0, Some(Refusal::Gain))),
    (0, (4095, 0, 0, Some(Refusal::Weight))),
    (1, (4095, 1048577, 0, Some(Refusal::Sample))),
];

impl<R: Print> Edges<'_, R> {
    // Frames of 3 symbols whose list of weights has a length that it is not to have.
    fn try_lists(&self, lengths: &[usize]) -> io::Result<Tally> {
        let mut tally = Tally::default();
        for weights in lengths.iter().copied() {
            tally += self.try_list(weights)?;
        }
        Ok(tally)
    }

    fn try_last_weights(&self) -> io::Result<Tally> {
        let mut tally = Tally::default();
        for (weight, last) in ENDS {
            tally += self.try_last(1, weight, last)?;
        }
        for (weight, last) in FAULTS {
            tally += self.try_last(256, weight, last)?;
        }
        Ok(tally)
    }

    // Two symbols at fault: the first is named, whatever its fault.
    fn try_first_faults(&self) -> io::Result<Tally> {
        let mut tally = Tally::default();
        for (weight, (gain, i, _, refusal)) in FIRST_FAULTS {
            let mut symbols = usual();
            symbols.gains[0] = gain;
            symbols.weights[0] = weight;
            symbols.yi[0] = i;
            symbols.gains[1] = 4096;
            symbols.weights[1] = 0;
            symbols.yi[1] = 1048577;
            let wanted = Wanted::from(refusal.map(Fault::from));
            tally += self.try_unpadded(2, wanted, &symbols)?;
        }
        Ok(tally)
    }

    // A weight at fault in a frame with one of its lengths changed, by which it is refused first.
    fn try_order(&self) -> io::Result<Tally> {
        let mut symbols = usual();
        symbols.weights[0] = 0;
        let mut tally = Tally::default();
        for length in LENGTHS {
            for change in CHANGES {
                let misfit = Misfit { length, change };
                tally += self.try_misfit(misfit, Some(Refusal::Weight), &symbols)?;
            }
        }
        Ok(tally)
    }
}
