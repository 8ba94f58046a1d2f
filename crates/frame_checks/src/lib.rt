// The checks of a whole frame, in the order of REQUIREMENTS, "Refusals": those of its header (crate header_checks), of its lengths and of its symbols.
// Each function gives the verdict of a part of the list of checks that specs/FrameCall of the crate frame defines.
#![tactic(auto)]

ghost use Rattle.std.specs.Prelude.{◌≡◌, ◌≢◌, not, ◌+◌, ◌<◌, ◌≤◌, length, get_or};
ghost use Rattle.std.specs.List.{list_all};
ghost use Rattle.arithmetic.specs.Lists.{joined};
ghost use Rattle.frame.specs.Limits.{full_limits};
ghost use Rattle.frame.specs.Frame.{frame_of};
ghost use Rattle.demapper.specs.Soft.{max_weight};
ghost use Rattle.frame.specs.Checks.{outside, verdict_of};
ghost use Rattle.frame.specs.FrameCall.{sample_outside, symbol_checks, frame_checks};
ghost use Rattle.header_checks.specs.Called.{checked, header_setup};
ghost use Rattle.frame_checks.specs.OutsideCount.{outside_count};

use constellation::{MAX_GAIN, MAX_SAMPLE};
use frame::{Fault, Header, Limits, Refusal, Room, Signal};
use header_checks::{MAX_WEIGHT, Setup, checked_header, is_outside};

fn sample_outside(y: i32) -> bool
    ensures { result ≡ sample_outside y }
{
    y < 0 - MAX_SAMPLE || MAX_SAMPLE < y
}

// The weight of a symbol; a list of weights that ends before it stands for ones.
fn weight_outside(weights: &[u16], n: usize) -> bool
    ensures { result ≡ outside 1 max_weight (get_or weights.now n 1) }
{
    is_outside(weights.get(n).map_or(1, |weight| *weight), MAX_WEIGHT)
}

// Whether each weight is in its range.
fn weights_inside(weights: &[u16]) -> bool
    ensures { result ≡ list_all (λ weight. not (outside 1 max_weight weight)) weights.now }
{
    weights
        .iter()
        .all(|weight| !is_outside(*weight, MAX_WEIGHT))
}

// The gains of a frame's symbols and their two coordinates, as many of each, and no more than the longest frame has; and their weights, where they have any.
#[derive(Clone, Copy)]
struct Symbols<'a> {
    gains: &'a [u16],
    weights: &'a [u16],
    yi: &'a [i32],
    yq: &'a [i32],
    ghost lengths: { (length gains.now ≤ full_limits.symbols) × (length yi.now ≡ length gains.now) × (length yq.now ≡ length gains.now) },
}

// 10, 7 and 11, symbol by symbol. Where there are no quadrature samples, the one coordinate stands for both. What it finds is asked for again by what reads the symbols, for
// as many of them as are read there: a type for it would carry the modulation as well.
pub fn signal_verdict(signal: Signal<'_>) -> Result<(), Fault>
    requires { (length signal.gains.now ≤ full_limits.symbols)
        × (length signal.yi.now ≡ length signal.gains.now)
        × (length signal.yq.now ≢ 0 → length signal.yq.now ≡ length signal.gains.now) }
    ensures { result ≡ verdict_of (joined (symbol_checks signal.entry.gains.now signal.entry.weights.now signal.entry.yi.now signal.entry.yq.now)
        (length signal.entry.gains.now)) }
{
    let Signal {
        gains,
        weights,
        yi,
        yq,
    } = signal;
    if yq.is_empty() {
        symbols_verdict(Symbols {
            gains,
            weights,
            yi,
            yq: yi,
        })
    } else {
        symbols_verdict(Symbols {
            gains,
            weights,
            yi,
            yq,
        })
    }
}

// The same, of two coordinates.
fn symbols_verdict(symbols: Symbols<'_>) -> Result<(), Fault>
    ensures { result ≡ verdict_of (joined (symbol_checks symbols.entry.gains.now symbols.entry.weights.now symbols.entry.yi.now symbols.entry.yq.now)
        (length symbols.entry.gains.now)) }
{
    if outside_count(symbols) == 0 && weights_inside(symbols.weights) {
        Ok(())
    } else {
        first_outside(symbols)
    }
}

// How many gains and coordinates are outside their ranges. The loop has no branch, so that it is quick where there are none.
// It is vector code: a chain with `zip` or `filter` takes three times as long, and three sums of flags up to twice as long.
fn outside_count(symbols: Symbols<'_>) -> u32
    ensures { result ≡ outside_count symbols.entry.gains.now symbols.entry.yi.now symbols.entry.yq.now (length symbols.entry.gains.now) }
{
    let Symbols { gains, yi, yq, .. } = symbols;
    let mut found: u32 = 0;
    for n in 0..gains.len() {
        found += u32::from(MAX_GAIN < gains[n])
            + u32::from(sample_outside(yi[n]))
            + u32::from(sample_outside(yq[n]));
    }
    found
}

// Goes through the symbols up to the first that is refused. Four lists are read at one place, which the fault names: a chain would zip them, count, and test the
// gain a second time.
fn first_outside(symbols: Symbols<'_>) -> Result<(), Fault>
    ensures { result ≡ verdict_of (joined (symbol_checks symbols.entry.gains.now symbols.entry.weights.now symbols.entry.yi.now symbols.entry.yq.now)
        (length symbols.entry.gains.now)) }
{
    let Symbols {
        gains,
        weights,
        yi,
        yq,
    } = symbols;
    for n in 0..gains.len() {
        if MAX_GAIN < gains[n] {
            return Err(Fault {
                refusal: Refusal::Gain,
                symbol: n as u16,
            });
        }
        if weight_outside(weights, n) {
            return Err(Fault {
                refusal: Refusal::Weight,
                symbol: n as u16,
            });
        }
        if sample_outside(yi[n]) || sample_outside(yq[n]) {
            return Err(Fault {
                refusal: Refusal::Sample,
                symbol: n as u16,
            });
        }
    }
    Ok(())
}

// All checks of a frame: those of its header, 16, 15, and 10, 7 and 11 of its symbols. A frame that passes them is handed back what its header calls for.
// For the hint see docs/DECISIONS.md, "Hints on inlining".
#[inline(always)]
pub fn frame_verdict(
    limits: Limits,
    header: Header,
    signal: Signal<'_>,
    room: Room,
) -> Result<Setup, Fault>
    requires { limits.symbols ≤ full_limits.symbols }
    ensures { result ≡ checked (verdict_of (frame_checks limits (frame_of header signal.entry) room))
        (header_setup header) }
{
    let setup = checked_header(limits, header)?;
    let payload = usize::from(header.payload);
    let own = setup.weights();
    let second = setup.modulation.quadrature_length(setup.symbols);
    let probes = setup.symbols * setup.modulation.probes_per_symbol();
    let Signal {
        gains,
        weights,
        yi,
        yq,
    } = signal;
    if gains.len() != setup.symbols
        || weights.len() != own
        || yi.len() != setup.symbols
        || yq.len() != second
    {
        Err(Refusal::InputLength.into())
    } else if room.hard < payload
        || room.soft < payload
        || room.indices < probes
        || room.costs < probes
    {
        Err(Refusal::OutputTooShort.into())
    } else {
        signal_verdict(signal)?;
        Ok(setup)
    }
}
