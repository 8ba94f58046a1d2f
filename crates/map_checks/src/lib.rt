// The checks of a message to be mapped, in the order of REQUIREMENTS, "Refusals".
#![tactic(auto)]

ghost use Rattle.frame.specs.Mapping.{message_of};
ghost use Rattle.map_checks.specs.Checked.{Judged};

pub mod message;

use constellation::{Bits, MAX_GAIN};
use frame::{Fault, MessageBits, Refusal, full_limits};
use header_checks::checked_setup;
use message::CheckedMessage;

// All checks of a message: 4, 5, 6, 10, 17, 15. A message that passes them is handed back as it is mapped.
pub fn map_verdict<'a>(
    message: MessageBits<'a>,
    roomi: usize,
    roomq: usize,
) -> Result<CheckedMessage<'a>, Fault>
    ensures { Judged (message_of message.entry) roomi roomq result }
{
    let MessageBits {
        kind,
        bits_i,
        bits_q,
        gain,
        bits,
    } = message;
    let setup = checked_setup(full_limits(), kind, bits_i, bits_q, bits.len())?;
    if MAX_GAIN < gain {
        return Err(Refusal::Gain.into());
    }
    let bits = Bits::new(bits).ok_or(Refusal::BitByte)?;
    if roomi < setup.symbols || roomq < setup.modulation.quadrature_length(setup.symbols) {
        return Err(Refusal::OutputTooShort.into());
    }
    Ok(CheckedMessage { setup, gain, bits })
}
