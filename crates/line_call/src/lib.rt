// The line call: a frame written as a line of hexadecimal, and the text that answers it. What it promises stands in specs/.
#![tactic(auto)]

mod serving;

ghost use Rattle.std.specs.Prelude.{◌≡◌, replicate, pos};
ghost use Rattle.frame.specs.Limits.{full_limits};
ghost use Rattle.line_text.specs.Within.{Servable};
ghost use Rattle.line_call.specs.Promise.{LinePromise};
ghost use Rattle.line_call.specs.AnsweredAt.{LineAnsweredAt};

use crate::serving::serve_line;
use frame::{Fault, Limits, MAX_SYMBOLS, full_limits};
use line_checks::{checked_text, fields_verdict};
use line_fields::parse_header;
use line_text::LineLimits;

// The gains, weights and samples of a line's symbols, as many as a line may have: the lists of a `Signal`, which C has so, of a fixed size.
#[derive(Drop)]
pub struct SymbolLists {
    pub gains: [u16; MAX_SYMBOLS],
    pub weights: [u16; MAX_SYMBOLS],
    pub yi: [i32; MAX_SYMBOLS],
    pub yq: [i32; MAX_SYMBOLS],
}

impl SymbolLists {
    // Lists of zeros.
    pub fn new() -> SymbolLists
        ensures gain { result.gains ≡ replicate full_limits.symbols 0 }
        ensures weight { result.weights ≡ replicate full_limits.symbols 0 }
        ensures in_phase { result.yi ≡ replicate full_limits.symbols (pos 0) }
        ensures quadrature { result.yq ≡ replicate full_limits.symbols (pos 0) }
    {
        SymbolLists {
            gains: [0; MAX_SYMBOLS],
            weights: [0; MAX_SYMBOLS],
            yi: [0; MAX_SYMBOLS],
            yq: [0; MAX_SYMBOLS],
        }
    }
}

// Answers a line: writes the answer's text at the start of the lent buffer; a refused line leaves the buffer as it is. The line comes without its
// newline, and the text has none.
pub fn answer_line(line: &[u8], answer: &mut [u8]) -> Result<usize, Fault>
    ensures { LinePromise full_limits line.now answer.old answer.new result }
{
    answer_at(full_limits(), line, answer, 0, &mut SymbolLists::new())
}

// Answers a line as `answer_line` does, within any limits, and from the position `at` of the lent buffer on: for a caller that answers many lines, and clears
// the lists that a line's symbols are parsed into once. These may hold anything, before the call and after it: a line that is refused by a symbol has written
// them too. Only `answer` is kept where a line is refused.
pub fn answer_at(
    limits: Limits,
    line: &[u8],
    answer: &mut [u8],
    at: usize,
    lists: &mut SymbolLists,
) -> Result<usize, Fault>
    requires { Servable limits }
    ensures { LineAnsweredAt limits line.now answer.old answer.new at result }
{
    let served = LineLimits::new(limits);
    let text = checked_text(limits, line)?;
    let header = parse_header(text);
    let room = answer.len().saturating_sub(at);
    let setup = fields_verdict(served, header, line.len(), room)?;
    serve_line(served, header, setup, text, answer, at, lists)
}
