// Answering a line whose text and fields pass their checks: its symbols are parsed and judged, and then each is read, and its soft values are written.
ghost use Rattle.std.specs.Prelude.{◌≡◌, ◌-◌, length};
ghost use Rattle.frame.specs.Verdicts.{Passed};
ghost use Rattle.frame.specs.Checks.{verdict_of};
ghost use Rattle.header_checks.specs.Called.{header_setup};
ghost use Rattle.line_text.specs.Line.{line_header};
ghost use Rattle.line_text.specs.LineCall.{text_checks};
ghost use Rattle.line_text.specs.Within.{field_checks};
ghost use Rattle.line_call.specs.AnsweredAt.{LineAnsweredAt};

use crate::SymbolLists;
use answer_fields::write_head;
use digit_reading::HexText;
use frame::{Fault, Header, Signal};
use frame_checks::signal_verdict;
use header_checks::Setup;
use line_fields::parse_symbols;
use line_payload::write_payload;
use line_text::{HEAD_DIGITS, LineLimits, text_length};
use symbol_reading::Demapper;

// Answers a line that passes its checks but for those of its symbols, with what its header calls for. The symbols are parsed into the lists, which may hold
// anything before and after.
pub fn serve_line(
    served: LineLimits,
    header: Header,
    setup: Setup,
    line: HexText<'_>,
    answer: &mut [u8],
    at: usize,
    lists: &mut SymbolLists,
) -> Result<usize, Fault>
    requires { (header ≡ line_header line.characters.now)
        × (setup ≡ header_setup header)
        × (verdict_of (text_checks served.limits line.characters.now) ≡ Passed)
        × (verdict_of (field_checks served.limits line.characters.now (length answer.old - at)) ≡ Passed) }
    ensures { LineAnsweredAt served.limits line.entry.characters.now answer.old answer.new at result }
{
    let Setup {
        modulation,
        symbols,
        weighted,
    } = setup;
    let own = setup.weights();
    let second = modulation.quadrature_length(symbols);
    let SymbolLists {
        gains,
        weights,
        yi,
        yq,
    } = lists;
    let gains = &mut gains[..symbols];
    let weights = &mut weights[..own];
    let yi = &mut yi[..symbols];
    let yq = &mut yq[..second];
    parse_symbols(line, weighted, modulation, gains, weights, yi, yq);
    let signal = Signal {
        gains,
        weights,
        yi,
        yq,
    };
    signal_verdict(signal)?;
    let probes = symbols * modulation.probes_per_symbol();
    write_head(probes as u16, answer, at);
    let demapper = Demapper::new(header.weight, header.shift, header.limit, modulation);
    write_payload(
        demapper,
        usize::from(header.payload),
        signal,
        served.width,
        answer,
        at + HEAD_DIGITS,
    );
    Ok(text_length(served.width, header.payload))
}
