// What a header calls for: the entries of a frame's lists, and the characters of its line and of the answer to it. What they mean stands in specs/.
#![tactic(auto)]

ghost use Rattle.frame.specs.Limits.{full_limits};
ghost use Rattle.sizes.specs.Promise.{SizesPromise};

use frame::{Header, Limits, Refusal, full_limits};
use header_checks::checked_header;
use line_fields::{HEADER_DIGITS, symbol_digits};
use line_text::{LineLimits, text_length};

// How many symbols a header's frame has, how many quadrature samples and probes these have, and the characters of its line and of the answer to it.
#[derive(Clone, Copy, Debug, PartialEq, Eq)]
pub struct Sizes {
    pub symbols: u32,
    pub quadrature: u32,
    pub probes: u32,
    pub line: u32,
    pub answer: u32,
}

// The sizes that a header calls for, by the limits of the frame call and of the line call, or the refusal of the header; `sizes_status` and `sizes_values`
// of specs/Sizes.
pub fn header_sizes(header: Header) -> Result<Sizes, Refusal>
    ensures { SizesPromise full_limits header result }
{
    sizes_within(LineLimits::new(full_limits()), header)
}

// The same within other limits.
pub fn sizes_within(served: LineLimits, header: Header) -> Result<Sizes, Refusal>
    ensures { SizesPromise served.limits header result }
{
    let setup = checked_header(served.limits, header)?;
    let modulation = setup.modulation;
    Ok(Sizes {
        symbols: setup.symbols as u32,
        quadrature: modulation.quadrature_length(setup.symbols) as u32,
        probes: (setup.symbols * modulation.probes_per_symbol()) as u32,
        line: (HEADER_DIGITS + setup.symbols * symbol_digits(setup.weighted, modulation)) as u32,
        answer: text_length(served.width, header.payload) as u32,
    })
}
