// Frames: the header, the answers and the refusals with their numbers. What they mean, the order of the checks and what the calls promise stand
// in specs/; the code of the checks is that of the crates header_checks and frame_checks.
#![tactic(auto)]

ghost use Rattle.std.specs.Prelude.{◌≡◌, ◌+◌, ◌*◌};
ghost use Rattle.frame.specs.Limits.{full_limits};
ghost use Rattle.frame.specs.Frame.{is_weighted, plain_kind};
ghost use Rattle.frame.specs.Refusals.{refusal_number};

// The largest kind number.
pub const MAX_KIND: u8 = 3;

// What is added to the kind number where each symbol has a weight of its own.
const WEIGHTED_KINDS: u8 = 0x80;

// Whether each symbol of a kind has a weight of its own.
#[tactic(auto, unfolding(crate::specs::Frame::is_weighted))]
pub fn is_weighted(kind: u8) -> bool
    ensures { result ≡ is_weighted kind }
{
    WEIGHTED_KINDS <= kind
}

// The kind number that says the modulation.
#[tactic(auto, unfolding(crate::specs::Frame::is_weighted, crate::specs::Frame::plain_kind))]
pub fn plain_kind(kind: u8) -> u8
    ensures { result ≡ plain_kind kind }
{
    if is_weighted(kind) {
        kind - WEIGHTED_KINDS
    } else {
        kind
    }
}

// What a frame is set up by (REQUIREMENTS, "Frames" and "Lines"): the kind number (0 PAM, 1 QAM, 2 PSK, 3 cellular, and 80 hexadecimal more where each symbol
// has a weight), the bits of the symbol or of its in-phase axis, those of its quadrature axis (0 for PAM and PSK), the payload's bits, and weight w (0 where
// each symbol has its own), shift s and limit T of the soft values.
// Every value of the types is an input and has its answer: so the kind is a number and no enum, 4 where it is none.
#[derive(Clone, Copy, Debug, PartialEq, Eq)]
pub struct Header {
    pub kind: u8,
    pub bits_i: u8,
    pub bits_q: u8,
    pub payload: u16,
    pub weight: u16,
    pub shift: u8,
    pub limit: u16,
}

// The symbols of the longest frame, and the digits of the longest line.
pub const MAX_SYMBOLS: usize = 256;

pub const MAX_LINE: usize = 6164;

// The digits of a soft value in the answer to a line.
pub const SOFT_DIGITS: usize = 4;

// What a call may bound more narrowly than another: the symbols of a frame, the limit T of its soft values, the digits of a line, and those of a soft value in
// the answer to a line. They are numbers that a caller sets, any of them: an enum for the digits would ask more of calls that no digits concern.
#[derive(Clone, Copy)]
pub struct Limits {
    pub symbols: usize,
    pub soft: u16,
    pub line: usize,
    pub digits: usize,
}

// The limits of the requirements.
pub fn full_limits() -> Limits
    ensures { result ≡ full_limits }
{
    Limits {
        symbols: MAX_SYMBOLS,
        soft: 32767,
        line: MAX_LINE,
        digits: SOFT_DIGITS,
    }
}

// Why an input is refused (REQUIREMENTS, "Refusals"). The number of each is `refusal_number` of specs/Refusals, and its `u8` in code.
#[derive(Clone, Copy, Debug, PartialEq, Eq)]
pub enum Refusal {
    LineLength,
    LineCharacter,
    LineLengthForHeader,
    Kind,
    BitsPerSymbol,
    Payload,
    Weight,
    Shift,
    Limit,
    Gain,
    Sample,
    NotFinite,
    RoundsOutOfRange,
    Scale,
    OutputTooShort,
    InputLength,
    BitByte,
    HeaderWeight,
}

// Why a frame or a line is refused, and the number of the symbol whose gain, weight or sample is refused, which is 0 where none of them is.
// What a call answers in place of this, and the numbers of both, say `frame_status` and those beside it in specs/Answers.
#[derive(Clone, Copy, Debug, PartialEq, Eq)]
pub struct Fault {
    pub refusal: Refusal,
    pub symbol: u16,
}

// A refusal of the whole input.
impl From<Refusal> for Fault {
    ghost from_gives = { λ r fault. fault ≡ record { refusal = r; symbol = 0 } };

    fn from(refusal: Refusal) -> Fault {
        Fault { refusal, symbol: 0 }
    }
}

// A fault's refusal alone, for an answer that has no symbol.
impl From<Fault> for Refusal {
    ghost from_gives = { λ fault refusal. refusal ≡ fault.refusal };

    fn from(fault: Fault) -> Refusal {
        fault.refusal
    }
}

// The number that stands for a fault in C (REQUIREMENTS, "Lines"): the refusal, and 256 times the symbol's number.
impl From<Fault> for u32 {
    ghost from_gives = { λ fault number. number ≡ refusal_number fault.refusal + 256 * fault.symbol };

    fn from(fault: Fault) -> u32 {
        u32::from(u8::from(fault.refusal)) + 256 * u32::from(fault.symbol)
    }
}

// What the frame call answers of a frame that it serves: how many probes the list has.
#[derive(Clone, Copy, Debug, PartialEq, Eq)]
pub struct Served {
    pub probes: u16,
}

// What is received of a frame: a gain and a sample for each symbol, whose quadrature coordinate PAM has not, and a weight, which plain kinds have not. Lists, as C
// has them, and none of symbols.
#[derive(Clone, Copy)]
pub struct Signal<'a> {
    pub gains: &'a [u16],
    pub weights: &'a [u16],
    pub yi: &'a [i32],
    pub yq: &'a [i32],
}

// What is mapped to samples: the kind number and the bits of the axes as in a header, one gain for all symbols, and the payload's bits, a byte for each. Any
// bytes are an input, and any kind number, as in a header.
#[derive(Clone, Copy)]
pub struct MessageBits<'a> {
    pub kind: u8,
    pub bits_i: u8,
    pub bits_q: u8,
    pub gain: u16,
    pub bits: &'a [u8],
}

// How many entries the four lent buffers of a frame have.
#[derive(Clone, Copy)]
pub struct Room {
    pub hard: usize,
    pub soft: usize,
    pub indices: usize,
    pub costs: usize,
}

// The number of a refusal.
impl From<Refusal> for u8 {
    ghost from_gives = { λ refusal number. number ≡ refusal_number refusal };

    #[tactic(auto, unfolding(crate::specs::Refusals::refusal_number))]
    fn from(refusal: Refusal) -> u8 {
        match refusal {
            Refusal::LineLength => 1,
            Refusal::LineCharacter => 2,
            Refusal::LineLengthForHeader => 3,
            Refusal::Kind => 4,
            Refusal::BitsPerSymbol => 5,
            Refusal::Payload => 6,
            Refusal::Weight => 7,
            Refusal::Shift => 8,
            Refusal::Limit => 9,
            Refusal::Gain => 10,
            Refusal::Sample => 11,
            Refusal::NotFinite => 12,
            Refusal::RoundsOutOfRange => 13,
            Refusal::Scale => 14,
            Refusal::OutputTooShort => 15,
            Refusal::InputLength => 16,
            Refusal::BitByte => 17,
            Refusal::HeaderWeight => 18,
        }
    }
}
