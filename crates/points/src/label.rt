// Powers of two, and Gray labels.
ghost use Rattle.std.specs.Prelude.{◌≡◌, true, false, ◌+◌, ◌*◌, ◌^◌, ◌<◌, ◌≤◌, get_or};
ghost use Rattle.constellation.specs.Ranges.{BitInRange, max_axis_bits};
ghost use Rattle.constellation.specs.Gray.{label_bit, index_of_label};
ghost use Rattle.points.specs.LabelWithin.{turned_bit, label_within};

use constellation::Bits;

// 2 to the power n. The library's `pow` is no plainer: it wants a cast of the exponent, at each call.
pub fn power(n: usize) -> usize
    requires { n < 64 }
    ensures { result ≡ 2 ^ n }
{
    1 << n
}

// Label bit i of index k, which has so many bits. Here and for counter-hypotheses, `BitInRange` is of three numbers of which callers have two constant: a struct
// of the three would be made for each call.
pub fn label_bit(bits: usize, k: usize, i: usize) -> usize
    requires { BitInRange bits k i }
    ensures { result ≡ label_bit bits i k }
{
    let digits = k >> (bits - 1 - i);
    (digits + digits / 2) % 2
}

// Entry i of a list of bits, with 0 behind its end.
pub fn bit_or_padding(bits: &[u8], i: usize) -> usize
    ensures { result ≡ get_or bits.now i 0 }
{
    bits.get(i).map_or(0, |bit| usize::from(*bit))
}

// A bit as it stands, or turned round: a flag, since a const parameter of the functions that read an axis is one, and no enum can be a const parameter.
#[tactic(auto, unfolding(crate::specs::LabelWithin::turned_bit))]
pub fn turned_bit(bit: usize, turned: bool) -> usize
    requires { bit < 2 }
    ensures { result ≡ turned_bit turned bit }
{
    if turned { 1 - bit } else { bit }
}

// Where the label of an axis or a phase stands in a list of bits: so many bits, the first one `skip` places behind the place where the symbol begins, so far
// apart, each as it stands or turned round. Bits may stand any number apart: an enum of the two layouts that modulations have would ask more.
#[derive(Clone, Copy)]
pub struct LabelLayout {
    pub bits: usize,
    pub skip: usize,
    pub apart: usize,
    pub turned: bool,
    pub ghost few: { bits ≤ max_axis_bits },
}

impl LabelLayout {
    // A label whose bits stand side by side as they are, behind as many others: those of PAM, QAM and PSK.
    pub fn in_row(bits: u8, skip: u8) -> LabelLayout
        requires { bits ≤ max_axis_bits }
        ensures { (result.bits ≡ bits) × (result.skip ≡ skip) × (result.apart ≡ 1) × (result.turned ≡ false) }
    {
        LabelLayout {
            bits: usize::from(bits),
            skip: usize::from(skip),
            apart: 1,
            turned: false,
        }
    }

    // One of two labels whose bits stand by turns, turned round: the cellular labels of an axis.
    pub fn by_turns(bits: u8, skip: u8) -> LabelLayout
        requires { bits ≤ max_axis_bits }
        ensures { (result.bits ≡ bits) × (result.skip ≡ skip) × (result.apart ≡ 2) × (result.turned ≡ true) }
    {
        LabelLayout {
            bits: usize::from(bits),
            skip: usize::from(skip),
            apart: 2,
            turned: true,
        }
    }

    // The index whose label stands so in the symbol that begins at the position `at`, with 0 behind the list's end. No fold is plainer: what the loop keeps is said of
    // the index so far and of how many bits are passed.
    pub fn index_at(self, bits: Bits<'_>, at: usize) -> usize
        requires { at + self.skip + self.bits * self.apart < 2 ^ 64 }
        ensures { result ≡ index_of_label (label_within bits.entry.bytes.now (at + self.skip) self.apart self.turned self.bits) }
    {
        let first = at + self.skip;
        let mut k: usize = 0;
        for i in 0..self.bits {
            let bit = bit_or_padding(bits.bytes, first + i * self.apart);
            k = 2 * k + (turned_bit(bit, self.turned) + k) % 2;
        }
        k
    }
}
