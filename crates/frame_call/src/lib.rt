// The frame call: the checks, and where a frame passes them hard bits, soft values and probes of every symbol.
#![tactic(auto)]

ghost use Rattle.std.specs.Prelude.{◌≡◌};
ghost use Rattle.arithmetic.specs.Lists.{joined};
ghost use Rattle.demapper.specs.Lent.{held_in, SameBuffers};
ghost use Rattle.frame.specs.Verdicts.{Passed};
ghost use Rattle.frame.specs.Limits.{full_limits};
ghost use Rattle.frame.specs.Frame.{header_modulation, frame_of, frame_parts, symbol_count, symbol_softs};
ghost use Rattle.frame.specs.FrameCall.{frame_verdict};
ghost use Rattle.frame.specs.Promise.{FramePromise};
ghost use Rattle.header_checks.specs.Called.{header_setup};
ghost use Rattle.symbol_reading.specs.PartsRead.{PartsRead};

use demapper::{OutputBuffers, Place};
use frame::{Fault, Header, Room, Served, Signal, full_limits};
use frame_checks::frame_verdict;
use frame_symbols::{read_signal, symbol_at};
use header_checks::Setup;
use padded_symbol::read_padded;
use symbol_reading::Demapper;

// Reads a frame: writes the payload's hard bits and soft values and every probe at the start of the four lent buffers, and answers the
// number of probes; a refused frame leaves the buffers as they are. There are a gain and an in-phase sample for each symbol, a quadrature sample too
// unless the modulation is PAM, which has none, and a weight where the kind says so. For the hints see docs/DECISIONS.md, "Hints on inlining".
#[inline(always)]
pub fn demap_frame(
    header: Header,
    signal: Signal<'_>,
    out: &mut OutputBuffers<'_>,
) -> Result<Served, Fault>
    ensures same { SameBuffers out.old out.new }
    ensures promise { FramePromise (frame_of header signal.entry)
        (held_in out.old) (held_in out.new) result }
{
    let room = Room {
        hard: out.hard.len(),
        soft: out.soft.len(),
        indices: out.indices.len(),
        costs: out.costs.len(),
    };
    let setup = frame_verdict(full_limits(), header, signal, room)?;
    let end = read_frame(header, setup, signal, out);
    Ok(Served {
        probes: end.probe as u16,
    })
}

// Reads a frame that passes its checks, by what its header calls for, and returns the place behind it: the symbols without padding, and then the last one if it
// has any.
#[inline(always)]
fn read_frame(
    header: Header,
    setup: Setup,
    signal: Signal<'_>,
    out: &mut OutputBuffers<'_>,
) -> Place
    requires { (frame_verdict full_limits (frame_of header signal) (held_in out.old) ≡ Passed)
        × (setup ≡ header_setup header) }
    ensures same { SameBuffers out.old out.new }
    ensures read { let f = frame_of header signal.entry in
        PartsRead (header_modulation header) (frame_parts f) (joined (symbol_softs f) (symbol_count f)) header.payload (record { bit = 0; probe = 0 })
        (held_in out.old) (held_in out.new) result }
{
    let modulation = setup.modulation;
    let demapper = Demapper::new(header.weight, header.shift, header.limit, modulation);
    let payload = usize::from(header.payload);
    let full = payload / modulation.bits_per_symbol();
    let whole = Signal {
        gains: &signal.gains[..full],
        ..signal
    };
    let start = Place { bit: 0, probe: 0 };
    let next = read_signal(demapper, whole, start, out);
    if full < setup.symbols {
        let symbol = symbol_at(signal, full);
        let own = demapper.for_symbol(signal.weights, full);
        read_padded(own, symbol, payload - next.bit, next, out)
    } else {
        next
    }
}
