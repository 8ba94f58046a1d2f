// Reading the fields of a line whose characters are digits.
#![tactic(auto)]

ghost use Rattle.std.specs.Prelude.{◌≡◌, cond, ℕ, ◌+◌, ◌<◌, ◌≤◌, length};
ghost use Rattle.arithmetic.specs.Lists.{first};
ghost use Rattle.hexadecimal.specs.Digits.{number_at};
ghost use Rattle.hexadecimal.specs.TwosComplement.{signed_at};
ghost use Rattle.constellation.specs.Schemes.{quadrature_length};
ghost use Rattle.line_text.specs.Line.{header_digits, line_header, digits_before, symbol_digits, symbol_at, gain_at, weight_at, in_phase_at, quadrature_at};

use constellation::Modulation;
use digit_reading::HexText;
use frame::Header;

// The digits of a header, of a gain and a weight each, and of a coordinate.
pub const HEADER_DIGITS: usize = 20;

const GAIN_DIGITS: usize = 4;

const SAMPLE_DIGITS: usize = 8;

#[tactic(auto, unfolding(line_text::specs::Line::line_header))]
pub fn parse_header(line: HexText<'_>) -> Header
    requires { header_digits ≤ length line.characters.now }
    ensures { result ≡ line_header line.entry.characters.now }
{
    Header {
        kind: line.number::<2>(0) as u8,
        bits_i: line.number::<2>(2) as u8,
        bits_q: line.number::<2>(4) as u8,
        payload: line.number::<4>(6) as u16,
        weight: line.number::<4>(10) as u16,
        shift: line.number::<2>(14) as u8,
        limit: line.number::<4>(16) as u16,
    }
}

// The digits of a symbol before its sample: those of its gain, and of its weight where each symbol has its own.
#[tactic(auto, unfolding(line_text::specs::Line::digits_before))]
fn digits_before(weighted: bool) -> usize
    ensures { result ≡ digits_before weighted }
{
    if weighted {
        2 * GAIN_DIGITS
    } else {
        GAIN_DIGITS
    }
}

// The digits of a symbol: these, those of one coordinate, and of the other where it has one.
#[tactic(auto, unfolding(line_text::specs::Line::digits_by, constellation::specs::Schemes::quadrature_length, constellation::specs::Schemes::has_quadrature))]
pub fn symbol_digits(weighted: bool, modulation: Modulation) -> usize
    ensures { result ≡ symbol_digits weighted modulation }
{
    digits_before(weighted) + SAMPLE_DIGITS + SAMPLE_DIGITS * modulation.quadrature_length(1)
}

// Reads the gains, the weights and the samples of as many symbols as there are places for; of plain kinds there are none for the weights, and of PAM none
// for `yq`.
pub fn parse_symbols(
    line: HexText<'_>,
    weighted: bool,
    modulation: Modulation,
    gains: &mut [u16],
    weights: &mut [u16],
    yi: &mut [i32],
    yq: &mut [i32],
)
    requires { (symbol_at (symbol_digits weighted modulation) (length gains.old) ≤ length line.characters.now)
        × (length weights.old ≡ cond weighted (length gains.old) 0)
        × (length yi.old ≡ length gains.old)
        × (length yq.old ≡ quadrature_length modulation (length gains.old)) }
    ensures gain { gains.new ≡ first (gain_at (symbol_digits weighted modulation) line.entry.characters.now) (length gains.old) }
    ensures weight { weights.new ≡ first (weight_at (symbol_digits weighted modulation) line.entry.characters.now) (length weights.old) }
    ensures in_phase { yi.new ≡ first (in_phase_at weighted (symbol_digits weighted modulation) line.entry.characters.now) (length gains.old) }
    ensures quadrature { yq.new ≡ first (quadrature_at weighted (symbol_digits weighted modulation) line.entry.characters.now)
        (quadrature_length modulation (length gains.old)) }
{
    let digits = symbol_digits(weighted, modulation);
    let sample = digits_before(weighted);
    parse_numbers(line, digits, 0, gains);
    parse_numbers(line, digits, GAIN_DIGITS, weights);
    parse_samples(line, digits, sample, yi);
    parse_samples(line, digits, sample + SAMPLE_DIGITS, yq);
}

// Reads the number of four digits that stands so many digits behind the start of a symbol, of as many symbols as there are places for.
fn parse_numbers(line: HexText<'_>, digits: usize, offset: usize, numbers: &mut [u16])
    requires { (n : ℕ) → n < length numbers.old → symbol_at digits n + offset + 4 ≤ length line.characters.now }
    ensures { numbers.new ≡ first (λ n. number_at line.entry.characters.now (symbol_at digits n + offset) 4) (length numbers.old) }
{
    for (n, number) in numbers.iter_mut().enumerate() {
        *number = line.number::<4>(HEADER_DIGITS + n * digits + offset) as u16;
    }
}

// Reads the coordinate that stands so many digits behind the start of a symbol, of as many symbols as there are places for.
fn parse_samples(line: HexText<'_>, digits: usize, offset: usize, samples: &mut [i32])
    requires { (n : ℕ) → n < length samples.old → symbol_at digits n + offset + 8 ≤ length line.characters.now }
    ensures { samples.new ≡ first (λ n. signed_at line.entry.characters.now (symbol_at digits n + offset) 8) (length samples.old) }
{
    for (n, sample) in samples.iter_mut().enumerate() {
        *sample = line.signed(HEADER_DIGITS + n * digits + offset);
    }
}
