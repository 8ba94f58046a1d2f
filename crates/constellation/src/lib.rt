// Gray-labelled constellations: the modulations. What they are, and labels, counter-hypotheses, levels, PSK points and costs, stands in specs/.
#![tactic(auto)]

ghost use Rattle.std.specs.Prelude.{◌≡◌, ◌↔◌, true, IsSome, IfSome, ltb};
ghost use Rattle.std.specs.List.{list_all};
ghost use Rattle.constellation.specs.Gray.{AllBits, AllBits_prop};
ghost use Rattle.constellation.specs.Schemes.{bits_per_symbol, probes_per_symbol, quadrature_length, fraction_bits};

// A modulation, with its bit counts as data (REQUIREMENTS, "Points and labels").
// Every value of the type is allowed here; the ranges of the bit counts are checked where a frame or a mapping is (crate header_checks).
#[derive(Clone, Copy)]
pub enum Modulation {
    // pulse amplitudes on one axis, with m bits
    Pam { bits: u8 },
    // an in-phase and a quadrature axis of pulse amplitudes, with m_i and m_q bits
    Qam { bits_i: u8, bits_q: u8 },
    // phases on a circle, with m bits
    Psk { bits: u8 },
    // two axes of pulse amplitudes as in QAM, with m bits each and the labels of cellular links (REQUIREMENTS, "Cellular labels")
    Cellular { bits: u8 },
}

// The most label bits of a symbol, and the most probes: those of QAM with 6 bits on each axis.
pub const MAX_SYMBOL_BITS: usize = 12;

pub const MAX_SYMBOL_PROBES: usize = 14;

// The largest gain, and the largest size of a sample.
pub const MAX_GAIN: u16 = 4095;

pub const MAX_SAMPLE: i32 = 1048576;

// What each modulation has (specs/Schemes).
impl Modulation {
    // The label bits of a symbol.
    #[tactic(auto, unfolding(crate::specs::Schemes::bits_per_symbol))]
    pub fn bits_per_symbol(self) -> usize
        ensures { result ≡ bits_per_symbol self }
    {
        match self {
            Modulation::Pam { bits } => usize::from(bits),
            Modulation::Qam { bits_i, bits_q } => usize::from(bits_i) + usize::from(bits_q),
            Modulation::Psk { bits } => usize::from(bits),
            Modulation::Cellular { bits } => 2 * usize::from(bits),
        }
    }

    // The probes of a symbol.
    #[tactic(auto, unfolding(crate::specs::Schemes::probes_per_symbol))]
    pub fn probes_per_symbol(self) -> usize
        ensures { result ≡ probes_per_symbol self }
    {
        match self {
            Modulation::Pam { bits } => usize::from(bits) + 1,
            Modulation::Qam { bits_i, bits_q } => usize::from(bits_i) + usize::from(bits_q) + 2,
            Modulation::Psk { bits } => usize::from(bits) + 1,
            Modulation::Cellular { bits } => 2 * usize::from(bits) + 2,
        }
    }

    // The samples of yq that so many symbols need.
    #[tactic(auto, unfolding(crate::specs::Schemes::quadrature_length, crate::specs::Schemes::has_quadrature))]
    pub fn quadrature_length(self, symbols: usize) -> usize
        ensures { result ≡ quadrature_length self symbols }
    {
        match self {
            Modulation::Pam { .. } => 0,
            Modulation::Qam { .. } | Modulation::Psk { .. } | Modulation::Cellular { .. } =>
                symbols,
        }
    }

    // e: costs of PSK are in units of 1/16384 = 2 ^ −14.
    #[tactic(auto, unfolding(crate::specs::Schemes::fraction_bits))]
    pub fn fraction_bits(self) -> usize
        ensures { result ≡ fraction_bits self }
    {
        match self {
            Modulation::Psk { .. } => 14,
            Modulation::Pam { .. } | Modulation::Qam { .. } | Modulation::Cellular { .. } => 0,
        }
    }
}

// A list of bits, a byte for each.
#[derive(Clone, Copy)]
pub struct Bits<'a> {
    pub bytes: &'a [u8],
    pub ghost bits: { AllBits bytes.now } by { AllBits_prop bytes.now },
}

impl<'a> Bits<'a> {
    // A list of bytes as one of bits, where each is 0 or 1. Of the shape of `HexText::new` in digit_reading, with another test and a contract of its own.
    pub fn new(bytes: &'a [u8]) -> Option<Bits<'a>>
        ensures bits { IsSome result ↔ (list_all (λ bit. ltb bit 2) bytes.now ≡ true) }
        ensures list { IfSome result (λ list. list.bytes.now ≡ bytes.now) }
    {
        if all_bits(bytes) {
            Some(Bits { bytes })
        } else {
            None
        }
    }
}

// Whether each byte is 0 or 1.
fn all_bits(bytes: &[u8]) -> bool
    ensures { result ≡ list_all (λ bit. ltb bit 2) bytes.now }
{
    bytes.iter().all(|bit| *bit < 2)
}
