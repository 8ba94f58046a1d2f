// Reading one symbol of any modulation: what each modulation's parts are read by, and where they are written.
#![tactic(auto)]

ghost use Rattle.std.specs.Prelude.{◌≡◌, ◌+◌, ◌≤◌, get_or};
ghost use Rattle.constellation.specs.Schemes.{fraction_bits};
ghost use Rattle.demapper.specs.Lent.{held_in, SameBuffers};
ghost use Rattle.demapper.specs.Rounding.{scale_of};
ghost use Rattle.demapper.specs.Soft.{max_weight, max_shift, max_limit};
ghost use Rattle.symbol_reading.specs.PartsRead.{scale_at, SymbolReady, SymbolRead};

use axis_reading::read_axis;
use constellation::Modulation;
use demapper::{OutputBuffers, Place, Rounding};
use phase_reading::read_phase;

// A received symbol. PAM has no quadrature sample, and reads none.
#[derive(Clone, Copy)]
pub struct Symbol {
    pub gain: u16,
    pub yi: i32,
    pub yq: i32,
}

// By what the symbols of a frame are read: their modulation, and what makes their soft values.
#[derive(Clone, Copy)]
pub struct Demapper {
    pub modulation: Modulation,
    pub rounding: Rounding,
}

impl Demapper {
    // Of weight w, shift s and limit T in their ranges: three numbers of a header, as for `SoftScale::new`.
    pub fn new(weight: u16, shift: u8, limit: u16, modulation: Modulation) -> Demapper
        requires { (weight ≤ max_weight) × (shift ≤ max_shift) × (limit ≤ max_limit) }
        ensures modulation { result.modulation ≡ modulation }
        ensures scale { scale_of result.rounding ≡ record { weight = weight; shift = shift + fraction_bits modulation; limit = limit } }
    {
        Demapper {
            modulation,
            rounding: Rounding::new(weight, shift, limit, modulation),
        }
    }

    // By what symbol n is read: by its own weight, where there are weights, and else by the one for all.
    pub fn for_symbol(self, weights: &[u16], n: usize) -> Demapper
        requires { get_or weights.now n 0 ≤ max_weight }
        ensures modulation { result.modulation ≡ self.modulation }
        ensures scale { scale_of result.rounding ≡ scale_at (scale_of self.rounding) weights.now n }
    {
        match weights.get(n) {
            Some(weight) => Demapper {
                rounding: self.rounding.weighing(*weight),
                ..self
            },
            None => self,
        }
    }
}

// Reads a symbol: writes all its bits and its probes from the place on, and returns the place behind them. Its callers are loops, of each of which the compiler makes
// one function with it: so a call of an axis is the only call for a symbol. Where that is left to the compiler, a symbol of BPSK executes 1.6 times the instructions.
// It takes a demapper's two fields apart: of a demapper the rounding would be copied for each symbol, and one of BPSK executes 1.06 of the instructions.
// `Fit`, and what a symbol in range is, are facts of several numbers and buffers that differ from call to call.
#[inline(always)]
pub fn read_symbol(
    modulation: Modulation,
    rounding: Rounding,
    symbol: Symbol,
    place: Place,
    out: &mut OutputBuffers<'_>,
) -> Place
    requires { SymbolReady modulation symbol place (held_in out.old) }
    ensures same { SameBuffers out.old out.new }
    ensures read { SymbolRead modulation rounding symbol place (held_in out.old) (held_in out.new) result }
{
    let gain = u64::from(symbol.gain);
    let yi = i64::from(symbol.yi);
    match modulation {
        Modulation::Pam { bits } => {
            let m = usize::from(bits);
            read_axis::<false>(m, gain, yi, rounding, place, out);
            place.behind(m, m + 1)
        }
        Modulation::Qam { bits_i, bits_q } => {
            let mi = usize::from(bits_i);
            let mq = usize::from(bits_q);
            let yq = i64::from(symbol.yq);
            let second = place.behind(mi, mi + 1);
            read_axis::<false>(mi, gain, yi, rounding, place, out);
            read_axis::<false>(mq, gain, yq, rounding, second, out);
            second.behind(mq, mq + 1)
        }
        Modulation::Psk { bits } => {
            let m = usize::from(bits);
            let yq = i64::from(symbol.yq);
            read_phase(m, gain, yi, yq, rounding, place, out);
            place.behind(m, m + 1)
        }
        Modulation::Cellular { bits } => {
            let m = usize::from(bits);
            let yq = i64::from(symbol.yq);
            let second = place.behind(1, m + 1);
            read_axis::<true>(m, gain, yi, rounding, place, out);
            read_axis::<true>(m, gain, yq, rounding, second, out);
            place.behind(2 * m, 2 * m + 2)
        }
    }
}
