// Whole frames, symbol by symbol (REQUIREMENTS, "Probes" and "Frames").
ghost use Rattle.std.specs.Prelude.{◌≤◌};

use crate::search::{Reading, read_symbol};
use crate::tables::{Entry, MAX_ENTRIES, Probe, Table};
use crate::weights::Weights;
use crate::{Settings, Symbol};

// A received frame: its settings, and the gains, weights, in-phase and quadrature coordinates of its symbols, which are lists of their own in C.
#[derive(Clone, Copy)]
pub struct Frame<'a> {
    pub settings: Settings,
    pub gains: &'a [u16],
    pub weights: Weights<'a>,
    pub yi: &'a [i32],
    pub yq: &'a [i32],
}

impl Frame<'_> {
    // Symbol n, with what is not there as 0: PAM has no quadrature coordinates, so the lists are not zipped.
    pub fn symbol_at(&self, n: usize) -> Symbol {
        Symbol {
            modulation: self.settings.modulation,
            gain: entry_or_zero(self.gains, n),
            weight: self.weights.weight_at(n),
            yi: entry_or_zero(self.yi, n),
            yq: entry_or_zero(self.yq, n),
        }
    }
}

fn entry_or_zero<T: Copy + Into<i64>>(list: &[T], n: usize) -> i64 {
    list.get(n).map_or(0, |x| (*x).into())
}

// How many entries each buffer has: those of the longest frame, 256 symbols of 14 probes.
pub const ENTRIES: usize = 3584;

// What is written of a frame, at the start of each list: hard bits and soft values of the payload, and indices and costs of the probes, which are buffers of
// their own in C.
#[derive(Drop)]
pub struct Buffers {
    pub hard: [u8; ENTRIES],
    pub soft: [i16; ENTRIES],
    pub indices: [u8; ENTRIES],
    pub costs: [i64; ENTRIES],
}

impl Buffers {
    // Entries that no frame has, so that an entry that is not to be written shows it.
    pub fn unwritten() -> Buffers {
        Buffers {
            hard: [170; ENTRIES],
            soft: [-32768; ENTRIES],
            indices: [170; ENTRIES],
            costs: [-2305843009213693952; ENTRIES],
        }
    }
}

// A frame that was read by search: what the frame call is to write of it, and how many bits and probes that is. There is no heap, so numbers stand beside
// the buffers.
#[derive(Drop)]
pub struct Found {
    pub buffers: Buffers,
    pub bits: usize,
    pub probes: u16,
    ghost bits_within: { bits ≤ 3584 },
    ghost probes_within: { probes ≤ 3584 },
}

// Reads a frame of up to 256 symbols by search.
pub fn search_frame(frame: &Frame<'_>) -> Found {
    let mut found = Found {
        buffers: Buffers::unwritten(),
        bits: 0,
        probes: 0,
    };
    let mut room = [Entry::NONE; MAX_ENTRIES];
    for n in 0..frame.gains.len().min(256) {
        let symbol = frame.symbol_at(n);
        found.push_bits(&frame.settings, &read_symbol(&symbol, &mut room));
        for part in symbol.modulation.points().parts().into_iter().flatten() {
            found.push_part(&Table::of(part, &symbol.unweighted(), &mut room));
        }
    }
    found
}

impl Found {
    // Adds a symbol's hard bits and soft values, those of the payload only.
    fn push_bits(&mut self, settings: &Settings, reading: &Reading<'_>) {
        for bit in (0..reading.table.bits).map(|at| reading.bit(at)) {
            if self.bits < ENTRIES && self.bits < settings.payload {
                self.buffers.hard[self.bits] = bit.hard;
                self.buffers.soft[self.bits] = settings.soft_value(bit.difference);
                self.bits += 1;
            }
        }
    }

    // Adds the probes of a part: its nearest index, then the rival of each bit that it has.
    fn push_part(&mut self, table: &Table<'_>) {
        let own = table.nearest();
        self.push_probe(own);
        for rival in (0..table.bits).map(|at| table.rival(own, at)) {
            if rival.index != own.index {
                self.push_probe(rival);
            }
        }
    }

    fn push_probe(&mut self, probe: Probe) {
        let at = usize::from(self.probes);
        if at < ENTRIES {
            self.buffers.indices[at] = (probe.index % 256) as u8;
            self.buffers.costs[at] = probe.entry.cost;
            self.probes += 1;
        }
    }
}
