// Tables of points or of words, by index, and the searches over all entries of one.
ghost use Rattle.std.specs.Prelude.{◌<◌, ◌≤◌, length};
ghost use Rattle.std.specs.Iterator.{IsFinite};

use crate::Symbol;
use crate::points::Points;

// The most entries of a table.
pub const MAX_ENTRIES: usize = 4096;

// No cost of a point or of a word is larger, even if weighted.
pub const MAX_COST: i64 = i64::MAX;

// The label of a point or of a word as a number, and its cost, weighted as the symbol says.
#[derive(Clone, Copy)]
pub struct Entry {
    pub label: usize,
    pub cost: i64,
}

impl Entry {
    // What stands where nothing is written; also the word of no symbols.
    pub const NONE: Entry = Entry { label: 0, cost: 0 };

    // That of a point of a symbol.
    pub(crate) fn of(points: Points, symbol: &Symbol, index: usize) -> Entry {
        Entry {
            label: points.label(index),
            cost: points.cost(symbol, index).saturating_mul(symbol.weight),
        }
    }
}

// An entry with its index.
#[derive(Clone, Copy)]
pub struct Probe {
    pub index: usize,
    pub entry: Entry,
}

impl Probe {
    // The word of no symbols.
    pub const NONE: Probe = Probe {
        index: 0,
        entry: Entry::NONE,
    };
}

impl From<(usize, &Entry)> for Probe {
    fn from((index, entry): (usize, &Entry)) -> Probe {
        Probe {
            index,
            entry: *entry,
        }
    }
}

// How indices lie: those of levels and of words along a line, those of points of PSK around a circle.
#[derive(Clone, Copy)]
pub enum Layout {
    Line,
    Circle,
}

// A place among the bits of labels that have so many, from 0 for the most significant.
#[derive(Clone, Copy)]
pub struct Place {
    pub bits: usize,
    pub at: usize,
}

impl Place {
    // The bit of a label there; 0 where labels, which have 12 bits at most, have none.
    pub fn bit_of(self, label: usize) -> usize
        ensures { result < 2 }
    {
        if self.at < self.bits && self.bits <= 12 {
            (label >> (self.bits - 1 - self.at)) % 2
        } else {
            0
        }
    }
}

// The least cost over the entries whose label has the bit 1 at a place less that over the entries with the bit 0.
pub(crate) fn difference<I: Iterator<Item = Entry> + Drop>(entries: I, place: Place) -> i64
    requires can { I.can_next entries }
    requires ends { IsFinite (I.remaining entries) }
{
    let mut least = [MAX_COST; 2];
    for entry in entries {
        let bit = place.bit_of(entry.label);
        least[bit] = least[bit].min(entry.cost);
    }
    least[1].saturating_sub(least[0])
}

// Where the entries of a table are written: memory is fixed throughout the project.
pub type Room = [Entry; MAX_ENTRIES];

// The entries of all points of a symbol or of a part of one, or of all words of a frame, how many bits their labels have, and how their indices lie.
#[derive(Clone, Copy)]
pub struct Table<'a> {
    pub entries: &'a [Entry],
    pub bits: usize,
    pub layout: Layout,
    ghost within: { length entries.now ≤ 4096 },
}

impl<'a> Table<'a> {
    // The table of these points of a symbol.
    pub fn of(points: Points, symbol: &Symbol, room: &'a mut Room) -> Table<'a>
        ensures { result.bits ≤ 12 }
    {
        let entries = &mut room[..points.count()];
        for (index, entry) in entries.iter_mut().enumerate() {
            *entry = Entry::of(points, symbol, index);
        }
        Table {
            entries,
            bits: symbol.modulation.bits(),
            layout: match points {
                Points::Circle(_) => Layout::Circle,
                Points::Levels(_) | Points::Grid(_, _) => Layout::Line,
            },
        }
    }

    // The entry of the least cost, among equals the first; of a table of no entries that of a word of no symbols.
    pub fn nearest(&self) -> Probe {
        self.entries
            .iter()
            .enumerate()
            .min_by_key(|(_, entry)| entry.cost)
            .map_or(Probe::NONE, Probe::from)
    }

    // The least cost of the entries whose label passes a test.
    pub fn least<F: Fn(usize) -> bool>(&self, test: F) -> i64
        requires { F.IsAlwaysCallable test }
    {
        self.entries
            .iter()
            .filter(|entry| test(entry.label))
            .map(|entry| entry.cost)
            .min()
            .unwrap_or(MAX_COST)
    }

    // A place among the bits of its labels.
    pub(crate) fn place(&self, at: usize) -> Place {
        Place {
            bits: self.bits,
            at,
        }
    }

    // The difference of a place.
    pub fn difference(&self, at: usize) -> i64 {
        difference(self.entries.iter().copied(), self.place(at))
    }

    // The best entry whose label has the other bit at a place than that of `own`; `own` itself where there is none. Among equals it is the one closest to `own`, as
    // the formulas of the requirements give it.
    pub fn rival(&self, own: Probe, at: usize) -> Probe {
        let place = self.place(at);
        let bit = place.bit_of(own.entry.label);
        self.entries
            .iter()
            .enumerate()
            .filter(|(_, entry)| place.bit_of(entry.label) != bit)
            .min_by_key(|(index, entry)| (entry.cost, self.steps(own.index, *index)))
            .map_or(own, Probe::from)
    }

    // How many steps lie between two indices: along a line, or the shorter way around a circle.
    fn steps(&self, a: usize, b: usize) -> usize {
        let along = a.abs_diff(b);
        match self.layout {
            Layout::Line => along,
            Layout::Circle => along.min(self.entries.len().abs_diff(along)),
        }
    }
}
