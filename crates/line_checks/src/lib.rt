// The checks of a line before those of its symbols, in the order of REQUIREMENTS, "Refusals". Each function gives the verdict of a part of the list of
// checks that specs/LineCall of the crate line_text defines.
#![tactic(auto)]

ghost use Rattle.std.specs.Prelude.{◌≡◌, MatchResult, List, ℕ, length};
ghost use Rattle.frame.specs.Verdicts.{Passed};
ghost use Rattle.frame.specs.Checks.{verdict_of};
ghost use Rattle.line_text.specs.Line.{line_header};
ghost use Rattle.line_text.specs.LineCall.{text_checks};
ghost use Rattle.line_text.specs.Within.{field_checks};
ghost use Rattle.header_checks.specs.Called.{checked, header_setup};

use digit_reading::HexText;
use frame::{Fault, Header, Limits, Refusal};
use header_checks::{Setup, checked_header};
use line_fields::{HEADER_DIGITS, symbol_digits};
use line_text::{LineLimits, text_length};

// 1 and 2: the line as a text of digits, where it passes.
#[tactic(auto, unfolding(frame::specs::Checks::verdict_of, line_text::specs::LineCall::text_checks, line_text::specs::LineCall::length_refused))]
pub fn checked_text<'a>(limits: Limits, line: &'a [u8]) -> Result<HexText<'a>, Fault>
    ensures { MatchResult result
        (λ text. (verdict_of (text_checks limits line.now) ≡ Passed) × (text.characters.now ≡ line.now))
        (λ fault. verdict_of (text_checks limits line.now) ≡ Err fault) }
{
    if line.len() % 2 == 1 || line.len() < HEADER_DIGITS || limits.line < line.len() {
        return Err(Refusal::LineLength.into());
    }
    Ok(HexText::new(line).ok_or(Refusal::LineCharacter)?)
}

// Those of the header, 3 and 15, of each line of so many characters with this header: what the header calls for, where they pass.
pub fn fields_verdict(
    served: LineLimits,
    header: Header,
    characters: usize,
    room: usize,
) -> Result<Setup, Fault>
    ensures { (line : List ℕ) → length line ≡ characters → header ≡ line_header line
        → result ≡ checked (verdict_of (field_checks served.limits line room)) (header_setup header) }
{
    let setup = checked_header(served.limits, header)?;
    if characters
        != HEADER_DIGITS + setup.symbols * symbol_digits(setup.weighted, setup.modulation)
    {
        Err(Refusal::LineLengthForHeader.into())
    } else if room < text_length(served.width, header.payload) {
        Err(Refusal::OutputTooShort.into())
    } else {
        Ok(setup)
    }
}
