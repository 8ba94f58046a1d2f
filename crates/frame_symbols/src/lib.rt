// Reading the symbols of a frame with all their bits.
#![tactic(auto)]

ghost use Rattle.std.specs.Prelude.{◌≡◌, ℕ, ◌+◌, ◌*◌, ◌<◌, ◌≤◌, pos, length, get_or, replicate};
ghost use Rattle.constellation.specs.Ranges.{max_symbol_bits, max_symbol_probes};
ghost use Rattle.constellation.specs.Schemes.{bits_per_symbol, probes_per_symbol};
ghost use Rattle.demapper.specs.Lent.{held_in, SameBuffers};
ghost use Rattle.demapper.specs.Rounding.{scale_of};
ghost use Rattle.demapper.specs.Soft.{max_weight};
ghost use Rattle.symbol_reading.specs.PartsRead.{SymbolInRange, parts_of, softs_of, scale_at, Fit, PartsRead, SymbolReady, SymbolRead};
ghost use Rattle.frame_symbols.specs.SymbolsRead.{symbol_at};

use constellation::{MAX_SYMBOL_BITS, MAX_SYMBOL_PROBES};
use demapper::{OutputBuffers, Place};
use frame::Signal;
use symbol_reading::{Demapper, Symbol, read_symbol};

// Symbol n of a frame. A list of quadrature samples that ends before it stands for zeros: PAM has none.
pub fn symbol_at(signal: Signal<'_>, n: usize) -> Symbol
    requires { (n < length signal.gains.now) × (n < length signal.yi.now) }
    ensures { result ≡ symbol_at signal.entry.gains.now signal.entry.yi.now signal.entry.yq.now n }
{
    Symbol {
        gain: signal.gains[n],
        yi: signal.yi[n],
        yq: signal.yq.get(n).map_or(0, |y| *y),
    }
}

// Reads as many symbols as there are gains, each by its own weight where the signal has weights: writes all their bits and their probes from the place on, and
// returns the place behind them. Symbols of one weight are read by a loop of their own, in which nothing asks for a weight; for the hint see
// docs/DECISIONS.md, "Hints on inlining".
#[inline(always)]
pub fn read_signal(
    demapper: Demapper,
    signal: Signal<'_>,
    place: Place,
    out: &mut OutputBuffers<'_>,
) -> Place
    requires { let gains = signal.gains.now in let yi = signal.yi.now in let modulation = demapper.modulation in
        (length gains ≤ length yi)
        × ((n : ℕ) → get_or signal.weights.now n 0 ≤ max_weight)
        × ((n : ℕ) → n < length gains → SymbolInRange modulation (symbol_at gains yi signal.yq.now n))
        × (Fit (place.bit + length gains * bits_per_symbol modulation) (place.probe + length gains * probes_per_symbol modulation) (held_in out.old)) }
    ensures same { SameBuffers out.old out.new }
    ensures read { let gains = signal.entry.gains.now in let modulation = demapper.modulation in
        let symbol = symbol_at gains signal.entry.yi.now signal.entry.yq.now in
        PartsRead modulation (parts_of modulation symbol (length gains))
        (softs_of modulation (scale_at (scale_of demapper.rounding) signal.entry.weights.now) symbol (length gains))
        (length gains * bits_per_symbol modulation) place
        (held_in out.old) (held_in out.new) result }
{
    if signal.weights.is_empty() {
        return read_symbols(demapper, signal, place, out);
    }
    let count = signal.gains.len();
    let mut next = place;
    for n in 0..count {
        let by = demapper.for_symbol(signal.weights, n);
        next = read_symbol(by.modulation, by.rounding, symbol_at(signal, n), next, out);
    }
    next
}

// The same by one weight for all, whatever weights the signal has.
// Symbol n comes from lists, of which that of the quadrature samples may be short: a chain of zips is no plainer. That each symbol is in range the checks of the
// caller have found; a signal that carried it would carry the modulation too.
fn read_symbols(
    demapper: Demapper,
    signal: Signal<'_>,
    place: Place,
    out: &mut OutputBuffers<'_>,
) -> Place
    requires { let gains = signal.gains.now in let yi = signal.yi.now in let modulation = demapper.modulation in
        (length gains ≤ length yi)
        × ((n : ℕ) → n < length gains → SymbolInRange modulation (symbol_at gains yi signal.yq.now n))
        × (Fit (place.bit + length gains * bits_per_symbol modulation) (place.probe + length gains * probes_per_symbol modulation) (held_in out.old)) }
    ensures same { SameBuffers out.old out.new }
    ensures read { let gains = signal.entry.gains.now in let modulation = demapper.modulation in
        let symbol = symbol_at gains signal.entry.yi.now signal.entry.yq.now in
        PartsRead modulation (parts_of modulation symbol (length gains))
        (softs_of modulation (λ n. scale_of demapper.rounding) symbol (length gains))
        (length gains * bits_per_symbol modulation) place
        (held_in out.old) (held_in out.new) result }
{
    let Demapper {
        modulation,
        rounding,
    } = demapper;
    let mut next = place;
    for n in 0..signal.gains.len() {
        let symbol = symbol_at(signal, n);
        next = read_symbol(modulation, rounding, symbol, next, out);
    }
    next
}

// Reads one symbol, as those of a frame are read: it promises what `read_symbol` does, of which the two loops above have the only copies.
pub fn read_one(
    demapper: Demapper,
    symbol: Symbol,
    place: Place,
    out: &mut OutputBuffers<'_>,
) -> Place
    requires { SymbolReady demapper.modulation symbol place (held_in out.old) }
    ensures same { SameBuffers out.old out.new }
    ensures read { SymbolRead demapper.modulation demapper.rounding symbol place (held_in out.old) (held_in out.new) result }
{
    let signal = Signal {
        gains: &[symbol.gain],
        weights: &[],
        yi: &[symbol.yi],
        yq: &[symbol.yq],
    };
    read_symbols(demapper, signal, place, out)
}

// Buffers of the size of one symbol, the largest: the four of `OutputBuffers`, in fixed memory.
#[derive(Drop)]
pub struct SymbolBuffers {
    pub hard: [u8; MAX_SYMBOL_BITS],
    pub soft: [i16; MAX_SYMBOL_BITS],
    pub indices: [u8; MAX_SYMBOL_PROBES],
    pub costs: [i64; MAX_SYMBOL_PROBES],
}

impl SymbolBuffers {
    // Filled with zeros.
    pub fn new() -> SymbolBuffers
        ensures { result ≡ record {
          hard = replicate max_symbol_bits 0;
          soft = replicate max_symbol_bits (pos 0);
          indices = replicate max_symbol_probes 0;
          costs = replicate max_symbol_probes (pos 0);
        } }
    {
        SymbolBuffers {
            hard: [0; MAX_SYMBOL_BITS],
            soft: [0; MAX_SYMBOL_BITS],
            indices: [0; MAX_SYMBOL_PROBES],
            costs: [0; MAX_SYMBOL_PROBES],
        }
    }

    // The four, lent to a reading: any symbol has room in them.
    pub fn lent(&mut self) -> OutputBuffers<'_>
        ensures { Fit max_symbol_bits max_symbol_probes (held_in result) }
    {
        let hard = &mut self.hard;
        let soft = &mut self.soft;
        let indices = &mut self.indices;
        let costs = &mut self.costs;
        OutputBuffers {
            hard,
            soft,
            indices,
            costs,
        }
    }
}
