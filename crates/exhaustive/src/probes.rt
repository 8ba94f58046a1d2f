// What a list of probes shows of a bit (REQUIREMENTS, "Words").
use crate::frames::Buffers;
use crate::modulations::Modulation;
use crate::points::Points;
use crate::tables::{Entry, Place, difference};

impl Buffers {
    // The difference, not weighted, that a frame's probes show for the bit at a place: the least cost of the probes of its symbol, for QAM of its axis, whose label has
    // the bit 1, less that of those with it 0.
    pub fn difference_shown(&self, modulation: Modulation, place: usize) -> i64 {
        let bits = modulation.bits().max(1);
        let points = modulation.points();
        let place_of_symbol = Place {
            bits,
            at: place % bits,
        };
        let mut start = (place / bits).saturating_mul(points.probes());
        for part in points.parts().into_iter().flatten() {
            if has_bit(part, place_of_symbol) {
                return self.difference_of(part, start, place_of_symbol);
            }
            start = start.saturating_add(part.probes());
        }
        0
    }

    // The same of a part whose probes begin at `start`.
    fn difference_of(&self, part: Points, start: usize, place: Place) -> i64 {
        let probes = self.indices.iter().zip(&self.costs).skip(start);
        let entries = probes.take(part.probes()).map(|(index, cost)| Entry {
            label: part.label(usize::from(*index)),
            cost: *cost,
        });
        difference(entries, place)
    }
}

// Whether the labels of a part have a bit at a place: then one of them has it 1.
fn has_bit(part: Points, place: Place) -> bool {
    (0..part.count()).any(|index| place.bit_of(part.label(index)) == 1)
}
