// Mapping bits to noise-free samples.
#![tactic(auto)]

ghost use Rattle.std.specs.Prelude.{◌≡◌, ◌+◌, ◌*◌, ◌≤◌, length};
ghost use Rattle.arithmetic.specs.Lists.{first};
ghost use Rattle.constellation.specs.Ranges.{max_phase_bits, max_symbol_bits};
ghost use Rattle.constellation.specs.Schemes.{bits_per_symbol};
ghost use Rattle.frame.specs.Limits.{full_limits};
ghost use Rattle.frame.specs.Mapping.{Message, message_of};
ghost use Rattle.frame.specs.Promise.{MapPromise};
ghost use Rattle.map_checks.specs.Checked.{IsMessage};
ghost use Rattle.map_call.specs.SamplesWritten.{Mappable, axis_sample, phase_point, SamplesWritten};

use constellation::{Bits, Modulation};
use frame::{MessageBits, Refusal};
use map_checks::map_verdict;
use map_checks::message::CheckedMessage;
use points::circle::psk_point;
use points::label::LabelLayout;
use points::line::level;

// Maps bits, with 0 for the padding of the last symbol, to samples without noise at the start of the two lent buffers, and answers the
// number of symbols; a refused message leaves the buffers as they are. For PAM the second buffer is left alone, whatever its length.
// The buffers are two lists of their own in C; a struct that lends them would want a clause at each function that it lends the same ones.
pub fn map_bits(message: MessageBits<'_>, yi: &mut [i32], yq: &mut [i32]) -> Result<u16, Refusal>
    ensures { MapPromise (message_of message.entry) yi.old yq.old yi.new yq.new result }
{
    let checked = map_verdict(message, yi.len(), yq.len())?;
    write_samples(checked, yi, yq);
    Ok(checked.setup.symbols as u16)
}

// Writes the samples of a message that passes its checks.
fn write_samples(message: CheckedMessage<'_>, yi: &mut [i32], yq: &mut [i32])
    requires { Mappable message yi.old yq.old }
    ensures { (m : Message) → IsMessage m message.entry → SamplesWritten m yi.old yq.old yi.new yq.new message.entry.setup.symbols }
{
    let modulation = message.setup.modulation;
    let symbols = message.setup.symbols;
    let yi = &mut yi[..symbols];
    let yq = &mut yq[..modulation.quadrature_length(symbols)];
    match modulation {
        Modulation::Pam { bits } => write_axis(message, LabelLayout::in_row(bits, 0), yi),
        Modulation::Qam { bits_i, bits_q } => {
            write_axis(message, LabelLayout::in_row(bits_i, 0), yi);
            write_axis(message, LabelLayout::in_row(bits_q, bits_i), yq);
        }
        Modulation::Psk { bits } => write_phase(message.bits, bits, yi, yq),
        Modulation::Cellular { bits } => {
            write_axis(message, LabelLayout::by_turns(bits, 0), yi);
            write_axis(message, LabelLayout::by_turns(bits, 1), yq);
        }
    }
}

// Writes one coordinate of PAM or QAM: symbol n begins as many bits behind the first as n symbols have.
fn write_axis(message: CheckedMessage<'_>, label: LabelLayout, out: &mut [i32])
    requires { (label.skip + label.bits * label.apart ≤ max_symbol_bits + 1)
        × (bits_per_symbol message.setup.modulation ≤ max_symbol_bits)
        × (length out.old ≤ full_limits.symbols) }
    ensures { out.new ≡ first (axis_sample message.entry label) (length out.old) }
{
    let gain = i64::from(message.gain);
    let stride = message.setup.modulation.bits_per_symbol();
    for (n, sample) in out.iter_mut().enumerate() {
        let k = label.index_at(message.bits, n * stride);
        *sample = (gain * level(label.bits, k)) as i32;
    }
}

// Writes both coordinates of PSK. Two lists are written at one place: `iter_mut` with `zip` tells a proof nothing of what is written.
fn write_phase(bits: Bits<'_>, m: u8, yi: &mut [i32], yq: &mut [i32])
    requires { (1 ≤ m)
        × (m ≤ max_phase_bits)
        × (length yi.old ≤ full_limits.symbols)
        × (length yq.old ≡ length yi.old) }
    ensures in_phase { yi.new ≡ first (λ n. (phase_point bits.entry.bytes.now m n).u) (length yi.old) }
    ensures quadrature { yq.new ≡ first (λ n. (phase_point bits.entry.bytes.now m n).v) (length yq.old) }
{
    let label = LabelLayout::in_row(m, 0);
    for n in 0..yi.len() {
        let point = psk_point(label.bits, label.index_at(bits, n * label.bits));
        yi[n] = point.u as i32;
        yq[n] = point.v as i32;
    }
}
