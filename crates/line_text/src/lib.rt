// The text of lines. What its fields, the checks and the answering text mean stands in specs/; the code is that of the crates line_fields and line_checks.
// Here are the length of the answer's text, and the limits by which lines can be served.
#![tactic(auto)]

ghost use Rattle.std.specs.Prelude.{◌≡◌, ◌+◌, ◌*◌, ◌^◌, ◌<◌, ◌≤◌};
ghost use Rattle.digit_writing.specs.Width.{digits_in};
ghost use Rattle.frame.specs.Limits.{full_limits};
ghost use Rattle.line_text.specs.Answer.{softs_at};
ghost use Rattle.line_text.specs.Within.{Servable};

use digit_writing::{Width, digits_in, width_of};
use frame::Limits;

// The digits before the first soft value: 00 and the number of probes.
pub const HEAD_DIGITS: usize = 6;

// The length of the text that answers an accepted frame with so many payload bits, each soft value of a width.
pub fn text_length(width: Width, payload: u16) -> usize
    ensures { result ≡ softs_at + payload * digits_in width }
{
    HEAD_DIGITS + usize::from(payload) * digits_in(width)
}

// Limits by which lines can be served (`Servable` of specs/Within), and the width of a soft value in the answers.
#[derive(Clone, Copy)]
pub struct LineLimits {
    pub limits: Limits,
    pub width: Width,
    pub ghost symbols: { limits.symbols ≤ full_limits.symbols },
    pub ghost soft: { limits.soft ≤ full_limits.soft },
    pub ghost digits: { digits_in width ≡ limits.digits },
    pub ghost fits: { 2 * limits.soft < 16 ^ limits.digits },
}

impl LineLimits {
    // The number of digits is a host's, among limits of which any are judged elsewhere; here it becomes a width.
    pub fn new(limits: Limits) -> LineLimits
        requires { Servable limits }
        ensures { result.limits ≡ limits }
    {
        LineLimits {
            limits,
            width: width_of(limits.digits),
        }
    }
}
