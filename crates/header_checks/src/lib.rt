// The checks that a header decides, in the order of REQUIREMENTS, "Refusals", and what the modulation of a header calls for. Mapping has the first of
// these checks too. Each function hands back what is called for, or the fault, by the
// verdict of a part of the lists of checks that specs/Checks and specs/FrameCall of the crate frame define.
#![tactic(auto)]

ghost use Rattle.std.specs.Prelude.{◌≡◌, cond, [], ◌∷◌, ltb};
ghost use Rattle.frame.specs.declared.Refusal.TheVariants.{Kind, BitsPerSymbol};
ghost use Rattle.frame.specs.Frame.{modulation_of, symbols_for};
ghost use Rattle.frame.specs.Checks.{check, max_kind, outside, bits_outside, verdict_of, modulation_checks};
ghost use Rattle.frame.specs.FrameCall.{weight_check, header_checks};
ghost use Rattle.header_checks.specs.Called.{checked, setup_for, header_setup};

use constellation::Modulation;
use frame::{Fault, Header, Limits, Refusal, is_weighted, plain_kind};

// The largest weight and shift.
pub const MAX_WEIGHT: u16 = 4095;

const MAX_SHIFT: u8 = 40;

// What a header or a message that passes its checks calls for: its modulation, just enough symbols for its payload, and whether each of them has a weight of its
// own.
#[derive(Clone, Copy)]
pub struct Setup {
    pub modulation: Modulation,
    pub symbols: usize,
    pub weighted: bool,
}

impl Setup {
    // How many weights it calls for.
    pub fn weights(self) -> usize
        ensures { result ≡ cond self.weighted self.symbols 0 }
    {
        if self.weighted { self.symbols } else { 0 }
    }
}

// 4 and 5: the modulation of a kind number, and the ranges of the bit counts that it has.
// Kind and bit counts go through this file as three bytes: C and a line hand them in so, and each value of the three has its answer. The requirements fix the match on
// the kind number.
#[tactic(auto, unfolding(frame::specs::Checks::verdict_of, frame::specs::Checks::bits_outside, frame::specs::Frame::modulation_of, crate::specs::Called::checked))]
fn checked_modulation(kind: u8, mi: u8, mq: u8) -> Result<Modulation, Fault>
    ensures { result ≡ checked (verdict_of (check (ltb max_kind kind) Kind ∷ check (bits_outside kind mi mq) BitsPerSymbol ∷ []))
        (modulation_of kind mi mq) }
{
    match kind {
        0 => match (mi, mq) {
            (1..=6, 0) => Ok(Modulation::Pam { bits: mi }),
            _ => Err(Refusal::BitsPerSymbol.into()),
        },
        1 => match (mi, mq) {
            (1..=6, 1..=6) => Ok(Modulation::Qam {
                bits_i: mi,
                bits_q: mq,
            }),
            _ => Err(Refusal::BitsPerSymbol.into()),
        },
        2 => match (mi, mq) {
            (1..=4, 0) => Ok(Modulation::Psk { bits: mi }),
            _ => Err(Refusal::BitsPerSymbol.into()),
        },
        3 => match (mi, mq) {
            (1..=3, _) if mi == mq => Ok(Modulation::Cellular { bits: mi }),
            _ => Err(Refusal::BitsPerSymbol.into()),
        },
        _ => Err(Refusal::Kind.into()),
    }
}

// The modulation of a kind number. Kinds above 3 are refused, so what is made of them does not matter.
#[tactic(auto, unfolding(frame::specs::Frame::modulation_of))]
pub fn modulation_of(kind: u8, mi: u8, mq: u8) -> Modulation
    ensures { result ≡ modulation_of kind mi mq }
{
    match kind {
        0 => Modulation::Pam { bits: mi },
        1 => Modulation::Qam {
            bits_i: mi,
            bits_q: mq,
        },
        2 => Modulation::Psk { bits: mi },
        _ => Modulation::Cellular { bits: mi },
    }
}

// The symbols that are just enough for a payload, with so many bits each; 0 where there are no bits.
pub fn symbols_for(bits: usize, payload: usize) -> usize
    ensures { result ≡ symbols_for bits payload }
{
    if bits == 0 { 0 } else { payload.div_ceil(bits) }
}

// 4, 5 and 6, of a plain kind.
pub fn checked_setup(
    limits: Limits,
    kind: u8,
    mi: u8,
    mq: u8,
    payload: usize,
) -> Result<Setup, Fault>
    ensures { result ≡ checked (verdict_of (modulation_checks limits kind mi mq payload)) (setup_for kind mi mq payload) }
{
    let modulation = checked_modulation(kind, mi, mq)?;
    let symbols = symbols_for(modulation.bits_per_symbol(), payload);
    if payload == 0 || limits.symbols < symbols {
        Err(Refusal::Payload.into())
    } else {
        Ok(Setup {
            modulation,
            symbols,
            weighted: false,
        })
    }
}

// 7, and in its place 18 where each symbol has a weight of its own.
#[tactic(auto, unfolding(frame::specs::Checks::verdict_of, frame::specs::FrameCall::weight_check, frame::specs::FrameCall::weight_check_by))]
fn weight_verdict(header: Header) -> Result<(), Fault>
    ensures { result ≡ verdict_of (weight_check header ∷ []) }
{
    if is_weighted(header.kind) {
        if header.weight != 0 {
            return Err(Refusal::HeaderWeight.into());
        }
    } else if is_outside(header.weight, MAX_WEIGHT) {
        return Err(Refusal::Weight.into());
    }
    Ok(())
}

// 4 to 6, 7 or 18, 8 and 9. Its hint, as those of the other functions between the exported
// call and the loop over symbols, keeps a frame of one symbol quick (docs/DECISIONS.md, "Hints on inlining").
#[inline(always)]
pub fn checked_header(limits: Limits, header: Header) -> Result<Setup, Fault>
    ensures { result ≡ checked (verdict_of (header_checks limits header)) (header_setup header) }
{
    let setup = checked_setup(
        limits,
        plain_kind(header.kind),
        header.bits_i,
        header.bits_q,
        usize::from(header.payload),
    )?;
    weight_verdict(header)?;
    if MAX_SHIFT < header.shift {
        Err(Refusal::Shift.into())
    } else if is_outside(header.limit, limits.soft) {
        Err(Refusal::Limit.into())
    } else {
        Ok(Setup {
            weighted: is_weighted(header.kind),
            ..setup
        })
    }
}

// Whether a number is 0, or larger than the largest.
pub fn is_outside(value: u16, largest: u16) -> bool
    ensures { result ≡ outside 1 largest value }
{
    !(1..=largest).contains(&value)
}
