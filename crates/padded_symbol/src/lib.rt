// Reading the last symbol of a frame, of which only some bits belong to the payload.
#![tactic(auto)]

ghost use Rattle.std.specs.Prelude.{◌≡◌, ◌+◌, ◌≤◌, length, take};
ghost use Rattle.arithmetic.specs.Lists.{over};
ghost use Rattle.constellation.specs.Schemes.{bits_per_symbol, probes_per_symbol};
ghost use Rattle.demapper.specs.Lent.{held_in, SameBuffers};
ghost use Rattle.demapper.specs.Rounding.{scale_of};
ghost use Rattle.symbol_reading.specs.PartsRead.{SymbolInRange, parts_for, softs_for, Fit, PartsRead};

use constellation::MAX_SYMBOL_BITS;
use demapper::{OutputBuffers, Place};
use frame_symbols::read_one;
use symbol_reading::{Demapper, Symbol};

// Reads a symbol of which only the first bits, `left` of them, belong to the payload: its bits and soft values are read into buffers of its own, of which the first
// are copied to the place, and its probes are written there like those of any other. Returns the place behind them. What it asks is as in symbol_reading: facts of
// several numbers and buffers that differ from call to call. For the hint see docs/DECISIONS.md, "Hints on inlining".
#[inline(always)]
pub fn read_padded(
    demapper: Demapper,
    symbol: Symbol,
    left: usize,
    place: Place,
    out: &mut OutputBuffers<'_>,
) -> Place
    requires { (SymbolInRange demapper.modulation symbol)
        × (left ≤ bits_per_symbol demapper.modulation)
        × (Fit (place.bit + left) (place.probe + probes_per_symbol demapper.modulation) (held_in out.old)) }
    ensures same { SameBuffers out.old out.new }
    ensures read { let modulation = demapper.modulation in
        PartsRead modulation (parts_for modulation symbol) (softs_for modulation (scale_of demapper.rounding) symbol) left place
        (held_in out.old) (held_in out.new) result }
{
    let mut label = [0u8; MAX_SYMBOL_BITS];
    let mut values = [0i16; MAX_SYMBOL_BITS];
    let hard = &mut label;
    let soft = &mut values;
    let indices = &mut *out.indices;
    let costs = &mut *out.costs;
    let mut own = OutputBuffers {
        hard,
        soft,
        indices,
        costs,
    };
    let start = Place {
        bit: 0,
        probe: place.probe,
    };
    let next = read_one(demapper, symbol, start, &mut own);
    write_over(out.hard, place.bit, &label[..left]);
    write_over(out.soft, place.bit, &values[..left]);
    Place {
        bit: place.bit + left,
        probe: next.probe,
    }
}

// Copies a list to the positions from `at` on of a buffer. By an index: the library's `copy_from_slice` is a call of memmove wherever the compiler does not see that
// the two lie apart, which a host without a C library would have to bring beside memcpy and memset; and `iter_mut` with `zip` tells a proof nothing of what is written.
fn write_over<T: Copy>(buffer: &mut [T], at: usize, list: &[T])
    requires { at + length list.now ≤ length buffer.old }
    ensures { buffer.new ≡ over buffer.old at list.now }
{
    for (i, entry) in list.iter().enumerate() {
        buffer[at + i] = *entry;
    }
}
