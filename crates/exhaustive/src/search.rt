// What a search of all points of a symbol finds.
ghost use Rattle.std.specs.Prelude.{◌<◌, ◌≤◌};

use crate::tables::{Entry, Room, Table};
use crate::{Settings, Symbol};

// Of a bit: that of the nearest point, and the difference of the least costs with the bit 1 and with it 0, weighted.
#[derive(Clone, Copy)]
pub struct Bit {
    pub hard: u8,
    pub difference: i64,
}

// Of a symbol: the table of its points, the nearest point, and how many cost as little as this one.
#[derive(Clone, Copy)]
pub struct Reading<'a> {
    pub table: Table<'a>,
    pub nearest: Entry,
    pub nearest_points: usize,
    ghost within: { table.bits ≤ 12 },
}

// Searches all points of a symbol.
pub fn read_symbol<'a>(symbol: &Symbol, room: &'a mut Room) -> Reading<'a> {
    let table = Table::of(symbol.modulation.points(), symbol, room);
    let nearest = table.nearest().entry;
    let nearest_points = table
        .entries
        .iter()
        .filter(|entry| entry.cost == nearest.cost)
        .count();
    Reading {
        table,
        nearest,
        nearest_points,
    }
}

impl Reading<'_> {
    // The bit at a place.
    pub fn bit(&self, at: usize) -> Bit
        ensures { result.hard < 2 }
    {
        Bit {
            hard: self.table.place(at).bit_of(self.nearest.label) as u8,
            difference: self.table.difference(at),
        }
    }

    // How many soft values of the symbol are rounded from a half and not cut off by the limit: what makes it hard to read, beside a tie.
    pub fn halves(&self, settings: &Settings) -> usize {
        (0..self.table.bits)
            .filter(|at| settings.is_half(self.table.difference(*at)))
            .count()
    }
}
