// Mapping and reading, one after the other.
#![tactic(auto)]

ghost use Rattle.std.specs.Prelude.{◌≡◌};
ghost use Rattle.frame.specs.Mapping.{message_of};
ghost use Rattle.round_trip.specs.Echo.{EchoPromise};

use constellation::{MAX_SYMBOL_BITS, MAX_SYMBOL_PROBES};
use demapper::OutputBuffers;
use frame::{Fault, Header, MAX_SYMBOLS, MessageBits, Served, Signal};
use frame_call::demap_frame;
use header_checks::modulation_of;
use map_call::map_bits;

// The bits and the probes of the longest frame.
const MAX_BITS: usize = MAX_SYMBOLS * MAX_SYMBOL_BITS;

const MAX_PROBES: usize = MAX_SYMBOLS * MAX_SYMBOL_PROBES;

// Maps bits to samples without noise and reads the samples at the same gain, into the lent buffer: a self-test of the two calls, which at
// any gain but 0 gives the bits back. A message that mapping or reading refuses leaves the buffer as it is.
pub fn map_and_read(message: MessageBits<'_>, hard: &mut [u8]) -> Result<Served, Fault>
    ensures { EchoPromise (message_of message.entry) hard.old hard.new result }
{
    let mut yi = [0; MAX_SYMBOLS];
    let mut yq = [0; MAX_SYMBOLS];
    let symbols = usize::from(map_bits(message, &mut yi, &mut yq)?);
    let gains = [message.gain; MAX_SYMBOLS];
    let mut soft = [0; MAX_BITS];
    let mut indices = [0; MAX_PROBES];
    let mut costs = [0; MAX_PROBES];
    let header = Header {
        kind: message.kind,
        bits_i: message.bits_i,
        bits_q: message.bits_q,
        payload: message.bits.len() as u16,
        weight: 1,
        shift: 0,
        limit: 1,
    };
    let modulation = modulation_of(message.kind, message.bits_i, message.bits_q);
    let signal = Signal {
        gains: &gains[..symbols],
        weights: &[],
        yi: &yi[..symbols],
        yq: &yq[..modulation.quadrature_length(symbols)],
    };
    let mut out = OutputBuffers {
        hard,
        soft: &mut soft,
        indices: &mut indices,
        costs: &mut costs,
    };
    demap_frame(header, signal, &mut out)
}
