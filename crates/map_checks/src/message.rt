// What the checks of a message hand back.
ghost use Rattle.std.specs.Prelude.{◌≤◌};
ghost use Rattle.constellation.specs.Ranges.{max_gain};

use constellation::Bits;
use header_checks::Setup;

// A message that passes its checks: what its numbers call for, its gain, and its bits.
#[derive(Clone, Copy)]
pub struct CheckedMessage<'a> {
    pub setup: Setup,
    pub gain: u16,
    pub bits: Bits<'a>,
    pub ghost gain_in: { gain ≤ max_gain },
}
