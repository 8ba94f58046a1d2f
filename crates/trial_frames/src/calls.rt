// The frame call held against the search, or against a refusal that leaves the buffers as they were.
use crate::answers::{Answer, Wanted};
use crate::judge::wrong_entries;
use crate::words::contradicted;
use demapper::OutputBuffers;
use exhaustive::Settings;
use exhaustive::frames::{Buffers, ENTRIES, Found, Frame, search_frame};
use exhaustive::modulations::{Modulation, NoModulation, Setup};
use exhaustive::weights::{WEIGHTED, Weighting, Weights};
use frame::{Fault, Header, Refusal, Room, Served, Signal};
use frame_call::demap_frame;
use std::{fmt, io};
use trial_draws::draws::{SYMBOLS, Symbols};

// How many entries are lent to the frame call of the gains, the weights, the in-phase and the quadrature coordinates, and of the four buffers.
#[derive(Clone, Copy)]
pub struct Lent {
    pub gains: usize,
    pub weights: usize,
    pub yi: usize,
    pub yq: usize,
    pub room: Room,
}

impl Lent {
    // What is lent for so many symbols, weights and quadrature coordinates, with room for the longest frame: 256 symbols of 12 bits and 14 probes.
    pub fn ample(symbols: usize, weights: usize, quadratures: usize) -> Lent {
        Lent {
            gains: symbols,
            weights,
            yi: symbols,
            yq: quadratures,
            room: Room {
                hard: 3072,
                soft: 3072,
                indices: 3584,
                costs: 3584,
            },
        }
    }
}

// A frame as the frame call gets it: the header, what is received, and how many entries are lent of the four buffers.
#[derive(Clone, Copy)]
pub struct Call<'a> {
    pub header: Header,
    pub signal: Signal<'a>,
    pub room: Room,
}

impl<'a> Call<'a> {
    pub fn new(header: Header, lent: Lent, symbols: &'a Symbols) -> Call<'a> {
        Call {
            header,
            signal: Signal {
                gains: &symbols.gains[..lent.gains.min(SYMBOLS)],
                weights: &symbols.weights[..lent.weights.min(SYMBOLS)],
                yi: &symbols.yi[..lent.yi.min(SYMBOLS)],
                yq: &symbols.yq[..lent.yq.min(SYMBOLS)],
            },
            room: lent.room,
        }
    }

    // The frame as the search takes it, or the refusal of numbers that stand for no modulation.
    pub fn frame(&self) -> Result<Frame<'a>, Refusal> {
        let setup = setup_of(self.header);
        Modulation::try_from(setup).map_err(refusal_of)?;
        let Signal {
            gains,
            weights,
            yi,
            yq,
        } = self.signal;
        Ok(Frame {
            settings: settings_of(self.header),
            gains,
            weights: match setup.weighting() {
                Weighting::OneForAll => Weights::OneForAll(i64::from(self.header.weight)),
                Weighting::OneForEach => Weights::OneForEach(weights),
            },
            yi,
            yq,
        })
    }

    // Reads the frame into the beginnings of four unwritten buffers.
    pub fn read(&self) -> (Answer, Buffers) {
        let mut buffers = Buffers::unwritten();
        let room = self.room;
        let mut out = OutputBuffers {
            hard: &mut buffers.hard[..room.hard.min(ENTRIES)],
            soft: &mut buffers.soft[..room.soft.min(ENTRIES)],
            indices: &mut buffers.indices[..room.indices.min(ENTRIES)],
            costs: &mut buffers.costs[..room.costs.min(ENTRIES)],
        };
        let answer = demap_frame(self.header, self.signal, &mut out);
        (Answer(answer), buffers)
    }

    // Reads the frame, and gives the number of wrong entries. These are printed, and then the frame.
    pub fn wrong(&self, rt: &impl Print, wanted: Wanted) -> io::Result<u64> {
        let (answer, buffers) = self.read();
        let by_points = self.wrong_by_points(rt, wanted, answer, &buffers)?;
        let by_words = match (wanted, self.frame()) {
            (Wanted::Words, Ok(frame)) => contradicted(rt, &frame, &buffers)?,
            _ => 0,
        };
        let wrong = by_points.saturating_add(by_words);
        if wrong > 0 {
            rt.println(self)?;
        }
        Ok(wrong)
    }

    // Compares an answer and all entries of the four buffers with what is wanted. Where a refusal is wanted, no symbol is searched.
    fn wrong_by_points(
        &self,
        rt: &impl Print,
        wanted: Wanted,
        answer: Answer,
        got: &Buffers,
    ) -> io::Result<u64> {
        let (wanted_answer, wanted) = match self.search(wanted) {
            Ok(found) => {
                let probes = found.probes;
                (Answer(Ok(Served { probes })), found.buffers)
            }
            Err(fault) => (Answer(Err(fault)), Buffers::unwritten()),
        };
        let wrong = wrong_entries(rt, "hard bit", &got.hard, &wanted.hard)?
            .saturating_add(wrong_entries(rt, "soft value", &got.soft, &wanted.soft)?)
            .saturating_add(wrong_entries(rt, "probe index", &got.indices, &wanted.indices)?)
            .saturating_add(wrong_entries(rt, "probe cost", &got.costs, &wanted.costs)?);
        if answer == wanted_answer {
            return Ok(wrong);
        }
        println!(rt; "WRONG answer: {answer}, wanted {wanted_answer}")?;
        Ok(wrong.saturating_add(1))
    }

    // What is to be read of the frame, or the refusal that is wanted.
    fn search(&self, wanted: Wanted) -> Result<Found, Fault> {
        match wanted {
            Wanted::Refusal(fault) => Err(fault),
            Wanted::Points | Wanted::Words => Ok(search_frame(&self.frame()?)),
        }
    }
}

// The numbers of a header that say which modulation a frame has.
fn setup_of(header: Header) -> Setup {
    Setup {
        kind: header.kind,
        bits_i: header.bits_i,
        bits_q: header.bits_q,
    }
}

// The settings of a frame, as the search takes them. What is made of a header that is refused does not matter.
pub fn settings_of(header: Header) -> Settings {
    let kind = header.kind % WEIGHTED;
    let bits_i = usize::from(header.bits_i);
    let bits_q = usize::from(header.bits_q);
    Settings {
        modulation: Modulation::of_numbers(kind, bits_i, bits_q),
        payload: usize::from(header.payload),
        shift: usize::from(header.shift),
        limit: i64::from(header.limit),
    }
}

// The refusal of numbers that stand for no modulation. Neither type is one of this crate, so no From can stand between them.
fn refusal_of(error: NoModulation) -> Refusal {
    match error {
        NoModulation::Kind => Refusal::Kind,
        NoModulation::Bits => Refusal::BitsPerSymbol,
    }
}

// A line of hexadecimal, which the program softlines reads, and the lengths that were lent, of the input and of the four buffers.
impl fmt::Display for Call<'_> {
    fn fmt<W: fmt::Write>(&self, f: &mut fmt::Formatter<W>) -> fmt::Result {
        let Header {
            kind,
            bits_i,
            bits_q,
            payload,
            weight,
            shift,
            limit,
        } = self.header;
        write!(f, "  frame {kind:02X}{bits_i:02X}{bits_q:02X}")?;
        write!(f, "{payload:04X}{weight:04X}{shift:02X}{limit:04X}")?;
        let Signal {
            gains,
            weights,
            yi,
            yq,
        } = self.signal;
        for (n, gain) in gains.iter().enumerate() {
            write!(f, "{gain:04X}")?;
            if let Some(weight) = weights.get(n) {
                write!(f, "{weight:04X}")?;
            }
            for y in [yi.get(n), yq.get(n)].into_iter().flatten() {
                write!(f, "{y:08X}")?;
            }
        }
        let Room {
            hard,
            soft,
            indices,
            costs,
        } = self.room;
        let (i, q) = (yi.len(), yq.len());
        write!(f, "\n  lengths {} {} {i} {q}", gains.len(), weights.len())?;
        write!(f, " {hard} {soft} {indices} {costs}")
    }
}
