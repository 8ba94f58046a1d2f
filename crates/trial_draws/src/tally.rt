// Counts of what was tried.
use exhaustive::frames::Frame;
use exhaustive::search::read_symbol;
use exhaustive::tables::{Entry, MAX_ENTRIES, Room};
use exhaustive::{Settings, Symbol};
use std::fmt;
use std::ops::{Add, AddAssign};

// Frames and symbols; symbols at gain 0, at an end of a range, with two nearest points; soft values that round a half; short frames, the words that they were
// held against, and the short frames that one weight for all symbols would read otherwise; wrong entries.
#[derive(Clone, Copy, Default)]
pub struct Tally {
    pub frames: u64,
    pub symbols: u64,
    pub gain_zero: u64,
    pub ends: u64,
    pub ties: u64,
    pub halves: u64,
    pub short_frames: u64,
    pub words: u64,
    pub weights_matter: u64,
    pub wrong: u64,
}

impl AddAssign for Tally {
    fn add_assign(&mut self, more: Tally) {
        self.frames = self.frames.saturating_add(more.frames);
        self.symbols = self.symbols.saturating_add(more.symbols);
        self.gain_zero = self.gain_zero.saturating_add(more.gain_zero);
        self.ends = self.ends.saturating_add(more.ends);
        self.ties = self.ties.saturating_add(more.ties);
        self.halves = self.halves.saturating_add(more.halves);
        self.short_frames = self.short_frames.saturating_add(more.short_frames);
        self.words = self.words.saturating_add(more.words);
        self.weights_matter = self.weights_matter.saturating_add(more.weights_matter);
        self.wrong = self.wrong.saturating_add(more.wrong);
    }
}

impl Add for Tally {
    type Output = Tally;

    fn add(mut self, more: Tally) -> Tally {
        self += more;
        self
    }
}

// Each count at the right of a column of 9 characters, but for that of weights, which is 0 where there is one for all symbols.
impl fmt::Display for Tally {
    fn fmt<W: fmt::Write>(&self, f: &mut fmt::Formatter<W>) -> fmt::Result {
        write!(
            f,
            "{:>9}{:>9}{:>9}",
            self.symbols, self.frames, self.gain_zero
        )?;
        write!(f, "{:>9}{:>9}{:>9}", self.ends, self.ties, self.halves)?;
        write!(
            f,
            "{:>9}{:>9}{:>9}",
            self.short_frames, self.words, self.wrong
        )
    }
}

impl Tally {
    // A frame and its symbols.
    pub fn of(frame: &Frame<'_>) -> Tally {
        let mut tally = Tally {
            frames: 1,
            ..Tally::default()
        };
        let mut room = [Entry::NONE; MAX_ENTRIES];
        // Symbols are counted, since `symbol_at` takes each from three lists.
        for n in 0..frame.gains.len() {
            tally += Tally::of_symbol(&frame.settings, &frame.symbol_at(n), &mut room);
        }
        tally
    }

    fn of_symbol(settings: &Settings, symbol: &Symbol, room: &mut Room) -> Tally {
        let reading = read_symbol(symbol, room);
        Tally {
            symbols: 1,
            gain_zero: u64::from(symbol.gain == 0),
            ends: u64::from(is_at_end(symbol)),
            ties: u64::from(reading.nearest_points > 1),
            halves: reading.halves(settings) as u64,
            ..Tally::default()
        }
    }
}

// Whether the gain is the largest, or a coordinate at an end of its range.
fn is_at_end(symbol: &Symbol) -> bool {
    symbol.gain == 4095
        || symbol.yi.unsigned_abs() == 1048576
        || symbol.yq.unsigned_abs() == 1048576
}
