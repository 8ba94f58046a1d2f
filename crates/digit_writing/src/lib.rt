// Writing fields of hexadecimal text. What they stand for is specs/Digits and specs/TwosComplement of the crate hexadecimal.
#![tactic(auto)]

ghost use Rattle.std.specs.Prelude.{◌≡◌, ◌⊎◌, ◌+◌, ◌<◌, ◌≤◌, length};
ghost use Rattle.arithmetic.specs.Lists.{over};
ghost use Rattle.hexadecimal.specs.Digits.{digit_of, digits_of};
ghost use Rattle.hexadecimal.specs.TwosComplement.{last_digits};
ghost use Rattle.digit_writing.specs.Width.{digits_in};

// How many digits a soft value is written with.
#[derive(Clone, Copy)]
pub enum Width {
    Two,
    Four,
}

// The width of so many digits. They come as a number that a host sets among its limits, and functions that take any limits stand beside those that take limits
// by which lines can be served.
pub fn width_of(digits: usize) -> Width
    requires { (digits ≡ 2) ⊎ (digits ≡ 4) }
    ensures { digits_in result ≡ digits }
{
    if digits == 2 { Width::Two } else { Width::Four }
}

// How many digits a width is.
pub fn digits_in(width: Width) -> usize
    ensures { result ≡ digits_in width }
{
    match width {
        Width::Two => 2,
        Width::Four => 4,
    }
}

// The digits, by their values.
const DIGITS: &[u8; 16] = b"0123456789ABCDEF";

// The digit of a value.
fn digit_of(v: u16) -> u8
    requires { v < 16 }
    ensures { result ≡ digit_of v }
{
    DIGITS[usize::from(v)]
}

// Writes a number with N digits from `at` on; above 16^N only its last ones. A slice and a position, here and in what stands above: a struct of both that lends the
// slice wants a clause at each function that it lends the same one, and a slice cut at each position a length to test.
pub fn write_number<const N: usize>(text: &mut [u8], at: usize, v: u16)
    requires { (N ≤ 4) × (at + N ≤ length text.old) }
    ensures { text.new ≡ over text.old at (digits_of N v) }
{
    // An index, since digit i goes by how many stand behind it.
    for i in 0..N {
        text[at + i] = digit_of((v >> (4 * (N - 1 - i))) % 16);
    }
}

// Writes the last digits of a signed number from `at` on.
pub fn write_signed(text: &mut [u8], at: usize, width: Width, z: i16)
    requires { at + digits_in width ≤ length text.old }
    ensures { text.new ≡ over text.old at (last_digits (digits_in width) z) }
{
    let v = z.cast_unsigned();
    match width {
        Width::Two => write_number::<2>(text, at, v),
        Width::Four => write_number::<4>(text, at, v),
    }
}
