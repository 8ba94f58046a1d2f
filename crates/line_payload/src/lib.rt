// Writing the soft values of a line's payload: each symbol is read, and as many of its soft values as belong to the payload are printed.
#![tactic(auto)]

ghost use Rattle.std.specs.Prelude.{◌≡◌, ℕ, ◌+◌, ◌*◌, ◌<◌, ◌≤◌, pos, length, get_or, take};
ghost use mathlib.Core.List.{flat_map};
ghost use Rattle.arithmetic.specs.Lists.{over};
ghost use Rattle.hexadecimal.specs.TwosComplement.{last_digits};
ghost use Rattle.digit_writing.specs.Width.{digits_in};
ghost use Rattle.constellation.specs.Ranges.{max_symbol_bits, max_symbol_probes};
ghost use Rattle.constellation.specs.Schemes.{bits_per_symbol};
ghost use Rattle.demapper.specs.Lent.{held_in, SameBuffers};
ghost use Rattle.demapper.specs.Rounding.{scale_of};
ghost use Rattle.demapper.specs.Soft.{max_weight};
ghost use Rattle.frame.specs.Sent.{as_sent};
ghost use Rattle.symbol_reading.specs.PartsRead.{SymbolInRange, softs_for, softs_of, scale_at, Fit};
ghost use Rattle.frame_symbols.specs.SymbolsRead.{symbol_at};

use answer_fields::write_softs;
use demapper::{OutputBuffers, Place};
use digit_writing::{Width, digits_in};
use frame::Signal;
use frame_symbols::{SymbolBuffers, read_one, symbol_at};
use symbol_reading::{Demapper, Symbol};

// That symbols are in range, and `Fit`, are facts as in symbol_reading, of several numbers and buffers that differ from call to call.
// Writes the soft values of a payload, each of a width, from the position `at` on. Each symbol is read, by its own weight where there are weights, into buffers of one
// symbol's size.
pub fn write_payload(
    demapper: Demapper,
    payload: usize,
    signal: Signal<'_>,
    width: Width,
    text: &mut [u8],
    at: usize,
)
    requires { let gains = signal.gains.now in let yi = signal.yi.now in
        (length gains ≤ length yi)
        × ((n : ℕ) → get_or signal.weights.now n 0 ≤ max_weight)
        × ((n : ℕ) → n < length gains → SymbolInRange demapper.modulation (symbol_at gains yi signal.yq.now n))
        × (at + payload * digits_in width ≤ length text.old) }
    ensures { let gains = signal.entry.gains.now in let modulation = demapper.modulation in
        text.new ≡ over text.old at (flat_map (last_digits (digits_in width))
        (take payload (as_sent modulation (pos 0) (softs_of modulation (scale_at (scale_of demapper.rounding) signal.entry.weights.now)
        (symbol_at gains signal.entry.yi.now signal.entry.yq.now) (length gains))))) }
{
    let bits = demapper.modulation.bits_per_symbol();
    let digits = digits_in(width);
    let mut buffers = SymbolBuffers::new();
    let mut own = buffers.lent();
    // How many soft values are written: at most so many a symbol, and fewer for the last. Symbols are counted, since each comes from several lists.
    let mut done = 0;
    for n in 0..signal.gains.len() {
        let count = bits.min(payload - done);
        let symbol = symbol_at(signal, n);
        let here = at + done * digits;
        let by = demapper.for_symbol(signal.weights, n);
        write_symbol(by, symbol, count, width, text, here, &mut own);
        done += count;
    }
}

// Reads a symbol into the buffers, and writes its first soft values, so many of them and each of a width, from the position `at` on: `count` says how many belong to the
// payload, and is no length. The buffers are lent once for a payload: made anew for each symbol, their lengths and places would be written each time.
fn write_symbol(
    demapper: Demapper,
    symbol: Symbol,
    count: usize,
    width: Width,
    text: &mut [u8],
    at: usize,
    own: &mut OutputBuffers<'_>,
)
    requires { (SymbolInRange demapper.modulation symbol)
        × (Fit max_symbol_bits max_symbol_probes (held_in own.old))
        × (count ≤ bits_per_symbol demapper.modulation)
        × (at + count * digits_in width ≤ length text.old) }
    ensures same { SameBuffers own.old own.new }
    ensures room { Fit max_symbol_bits max_symbol_probes (held_in own.new) }
    ensures written { let modulation = demapper.modulation in
        text.new ≡ over text.old at (flat_map (last_digits (digits_in width))
        (take count (as_sent modulation (pos 0) (softs_for modulation (scale_of demapper.rounding) symbol)))) }
{
    let start = Place { bit: 0, probe: 0 };
    read_one(demapper, symbol, start, own);
    write_softs(width, &own.soft[..count], text, at);
}
