// All rival words of a short frame (REQUIREMENTS, "Words"), as a table like that of a symbol's points. The label of a word has the bits of all symbols
// in the order sent, padding included, and its cost is the sum of those of its points, each multiplied by its symbol's weight.
ghost use Rattle.std.specs.Prelude.{◌≤◌};

use crate::Symbol;
use crate::frames::Frame;
use crate::points::Points;
use crate::tables::{Entry, Layout, MAX_ENTRIES, Room, Table};

// The words of a frame of up to 12 symbols, if these have up to 12 bits. Its last symbol's points are counted through first: each symbol, from the last one on, leads
// the words of those behind it, so its points are made once.
pub fn search_words<'a>(frame: &Frame<'_>, room: &'a mut Room) -> Table<'a> {
    let modulation = frame.settings.modulation;
    let points = modulation.points();
    let symbols = frame.gains.len().min(12);
    room[0] = Entry::NONE;
    let mut total = 1;
    let mut unit: usize = 1;
    for n in (0..symbols).rev() {
        total = lead(points, &frame.symbol_at(n), unit, total, room);
        unit = unit.saturating_mul(points.count());
    }
    Table {
        entries: &room[..total],
        bits: symbols * modulation.bits(),
        layout: Layout::Line,
    }
}

// Makes of so many words those that each point of a symbol leads, as far as there is room, and gives their number. A point's label is multiplied by the unit, 2 to the
// number of bits behind it. The words themselves stand where those of the first point are to stand, so these are made last.
fn lead(points: Points, symbol: &Symbol, unit: usize, words: usize, room: &mut Room) -> usize
    requires { (1 ≤ words) × (words ≤ 4096) }
    ensures { (1 ≤ result) × (result ≤ 4096) }
{
    let (behind, free) = room.split_at_mut(words);
    for (index, led) in (1..points.count()).zip(free.chunks_exact_mut(words)) {
        let point = Entry::of(points, symbol, index);
        for (entry, word) in led.iter_mut().zip(&*behind) {
            *entry = word.led_by(point, unit);
        }
    }
    let first = Entry::of(points, symbol, 0);
    for word in behind.iter_mut() {
        *word = word.led_by(first, unit);
    }
    words.saturating_mul(points.count()).min(MAX_ENTRIES)
}

impl Entry {
    // A word with a point before it, whose label is multiplied by the unit.
    fn led_by(self, point: Entry, unit: usize) -> Entry {
        Entry {
            label: point.label.saturating_mul(unit) | self.label,
            cost: self.cost.saturating_add(point.cost),
        }
    }
}

impl Table<'_> {
    // The least cost of the words that begin with these bits.
    pub fn least_beginning(&self, given: &[u8]) -> i64 {
        let beginning = number_of(given);
        let behind = self.bits.saturating_sub(given.len()).min(12) as u32;
        self.least(|label| label >> behind == beginning)
    }
}

// The number whose digits these bits are.
pub fn number_of(bits: &[u8]) -> usize {
    bits.iter().fold(0, |number, bit| number % 4294967296 * 2 + usize::from(*bit))
}
