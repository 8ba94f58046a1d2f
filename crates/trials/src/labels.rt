// Published labels, read and mapped: the binary-reflected Gray code, the words of cellular links, and the examples of the article.
use crate::cellular::Word;
use exhaustive::modulations::{Bits, Modulation, Setup};
use exhaustive::tables::Place;
use exhaustive::weights::Weighting;
use exhaustive::words::number_of;
use frame::{MessageBits, Signal};
use map_call::map_bits;
use std::{fmt, io};
use trial_draws::draws::Sample;
use trial_draws::schemes::{Extent, SETUPS, modulation_at};
use trial_draws::tally::Tally;
use trial_frames::calls::{Call, Lent};
use trial_frames::judge::Judge;

// The binary-reflected Gray code of 6 bits, as F. Gray's patent 2,632,058 and OEIS A003188 list it; that of m bits is its first 2^m entries.
const GRAY: [u8; 64] = [
    0, 1, 3, 2, 6, 7, 5, 4, 12, 13, 15, 14, 10, 11, 9, 8, 24, 25, 27, 26, 30, 31, 29, 28, 20, 21,
    23, 22, 18, 19, 17, 16, 48, 49, 51, 50, 54, 55, 53, 52, 60, 61, 63, 62, 58, 59, 57, 56, 40, 41,
    43, 42, 46, 47, 45, 44, 36, 37, 39, 38, 34, 35, 33, 32,
];

// Tries the examples, and all points of every modulation, of a larger one than 256 points the first 256.
pub fn try_labels(rt: &impl Print) -> io::Result<Tally> {
    let mut tally = try_examples(rt)?;
    for modulation in (0..SETUPS).filter_map(modulation_at) {
        let mut labels = Labels::of(rt, modulation);
        for index in 0..modulation.points().count().min(256) {
            labels.try_point(index)?;
        }
        tally += labels.tried()?;
    }
    Ok(tally)
}

// The article's two examples, each at its own point: 8-PAM with k* = 2 and the label 011 (figure 1), 8-PSK with k* = 1 and the label 001 (figure 2), and
// the counter-hypotheses of their bits by its equations 5 and 11.
fn try_examples(rt: &impl Print) -> io::Result<Tally> {
    let three = Bits { number: 3 };
    let examples = [
        (Modulation::Pam(three), 2, 0b011, Probes([2, 4, 1, 3])),
        (Modulation::Psk(three), 1, 0b001, Probes([1, 7, 2, 0])),
    ];
    let mut tally = Tally::default();
    for (modulation, index, label, probes) in examples {
        let mut labels = Labels::of(rt, modulation);
        labels.try_example(index, label, probes)?;
        tally += labels.tried()?;
    }
    Ok(tally)
}

// A point: its published label, a gain, and the sample that is sent for it at that gain.
#[derive(Clone, Copy)]
struct Point {
    label: usize,
    gain: u16,
    sample: Sample,
}

// What is read of a symbol: its label, and its first four probes.
#[derive(Clone, Copy)]
struct Heard {
    label: usize,
    probes: Probes,
}

// The indices of four probes.
#[derive(Clone, Copy, PartialEq, Eq)]
struct Probes([u8; 4]);

impl fmt::Display for Probes {
    fn fmt<W: fmt::Write>(&self, f: &mut fmt::Formatter<W>) -> fmt::Result {
        let [nearest, first, second, third] = self.0;
        write!(f, "{nearest} {first} {second} {third}")
    }
}

// Points of a modulation: where wrong entries are printed, and what was tried.
#[derive(Drop)]
struct Labels<'a, R: Print> {
    rt: &'a R,
    modulation: Modulation,
    tally: Tally,
}

impl<'a, R: Print> Labels<'a, R> {
    fn of(rt: &'a R, modulation: Modulation) -> Labels<'a, R> {
        Labels {
            rt,
            modulation,
            tally: Tally::default(),
        }
    }

    // Reads a point, and maps its published label: all bits, and once more without the 0s at its end, which are then padding.
    fn try_point(&mut self, index: usize) -> io::Result<()> {
        let point = self.published(index);
        let bits = self.modulation.bits();
        let mut judge = Judge::new(self.rt);
        let heard = self.heard(&point);
        judge.entry("label of point", index, &heard.label, &point.label)?;
        for sent in [bits, unpadded(point.label, bits)] {
            let mapped = self.mapped(&point, sent);
            judge.entry("mapped yi of point", index, &mapped.i, &point.sample.i)?;
            judge.entry("mapped yq of point", index, &mapped.q, &point.sample.q)?;
        }
        self.count(judge.wrong);
        Ok(())
    }

    // Reads a point that has this label and these probes.
    fn try_example(&mut self, index: usize, label: usize, probes: Probes) -> io::Result<()> {
        let point = self.unit_point(label, index);
        let mut judge = Judge::new(self.rt);
        let heard = self.heard(&point);
        judge.entry("label of point", index, &heard.label, &label)?;
        judge.entry("probes of an example", index, &heard.probes, &probes)?;
        self.count(judge.wrong);
        Ok(())
    }

    // Counts a point, of which so much was wrong.
    fn count(&mut self, wrong: u64) {
        self.tally += Tally {
            symbols: 1,
            wrong,
            ..Tally::default()
        };
    }

    // What was tried. Where something was wrong, the name of the modulation is printed.
    fn tried(&self) -> io::Result<Tally> {
        if self.tally.wrong > 0 {
            println!(self.rt; "  labels of {}", self.modulation)?;
        }
        Ok(self.tally)
    }

    // A point by its index and at gain 1; with cellular labels by its word and at the largest gain.
    fn published(&self, index: usize) -> Point {
        match self.modulation {
            Modulation::Cellular(bits) => {
                let word = Word {
                    axis_bits: bits,
                    number: index,
                };
                Point {
                    label: index,
                    gain: 4095,
                    sample: word.sample(4095),
                }
            }
            _ => {
                let (_, bits_q) = self.modulation.axes();
                self.unit_point(published_label(bits_q, index), index)
            }
        }
    }

    // A point of this label, without noise, at gain 1.
    fn unit_point(&self, label: usize, index: usize) -> Point {
        let (i, q) = self.modulation.points().sample(index);
        Point {
            label,
            gain: 1,
            sample: Sample { i, q },
        }
    }

    // What is read of the sample of a point.
    fn heard(&self, point: &Point) -> Heard {
        let bits = self.modulation.bits();
        let extent = Extent {
            modulation: self.modulation,
            weighting: Weighting::OneForAll,
            symbols: 1,
            bits_used: bits,
        };
        let call = Call {
            header: extent.header(),
            signal: Signal {
                gains: &[point.gain],
                weights: &[],
                yi: &[point.sample.i],
                yq: &[point.sample.q][..extent.quadratures()],
            },
            room: Lent::ample(1, 0, 1).room,
        };
        let (_, buffers) = call.read();
        let [nearest, first, second, third, ..] = buffers.indices;
        Heard {
            label: number_of(&buffers.hard[..bits]),
            probes: Probes([nearest, first, second, third]),
        }
    }

    // What the first bits of the label of a point are mapped to; the second coordinate is 0 where there is none.
    fn mapped(&self, point: &Point, sent: usize) -> Sample {
        let Setup {
            kind,
            bits_i,
            bits_q,
        } = Setup::from(self.modulation);
        let mut bits = [0; 12];
        for (at, bit) in bits.iter_mut().enumerate() {
            let place = Place {
                bits: self.modulation.bits(),
                at,
            };
            *bit = place.bit_of(point.label) as u8;
        }
        let message = MessageBits {
            kind,
            bits_i,
            bits_q,
            gain: point.gain,
            bits: &bits[..sent.min(12)],
        };
        let mut yi = [7];
        let mut yq = [7];
        let _ = map_bits(message, &mut yi, &mut yq);
        let has_quadrature = self.modulation.has_quadrature();
        Sample {
            i: yi[0],
            q: if has_quadrature { yq[0] } else { 0 },
        }
    }
}

// The published label of a point: that of the index in phase, then that of the index in quadrature, which has so many bits.
fn published_label(bits_q: Bits, index: usize) -> usize {
    let levels = bits_q.count();
    let i = usize::from(GRAY[index / levels % 64]);
    let q = usize::from(GRAY[index % levels % 64]);
    (i << bits_q.number) | q
}

// How many bits a label has up to its last 1; 1 if it has none.
fn unpadded(label: usize, bits: usize) -> usize {
    bits.saturating_sub(label.trailing_zeros() as usize).max(1)
}
