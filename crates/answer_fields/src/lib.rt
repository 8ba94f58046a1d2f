// Writing the fields of the text that answers an accepted line.
#![tactic(auto)]

ghost use Rattle.std.specs.Prelude.{◌≡◌, ◌+◌, ◌*◌, ◌≤◌, length};
ghost use mathlib.Core.List.{◌++◌, flat_map};
ghost use Rattle.arithmetic.specs.Lists.{over};
ghost use Rattle.hexadecimal.specs.Digits.{digits_of};
ghost use Rattle.hexadecimal.specs.TwosComplement.{last_digits};
ghost use Rattle.digit_writing.specs.Width.{digits_in};
ghost use Rattle.line_text.specs.Answer.{softs_at};

use digit_writing::{Width, digits_in, write_number, write_signed};

// Writes 00 and the number of probes from the position `at` on.
pub fn write_head(probes: u16, text: &mut [u8], at: usize)
    requires { at + softs_at ≤ length text.old }
    ensures { text.new ≡ over text.old at (digits_of 2 0 ++ digits_of 4 probes) }
{
    write_number::<2>(text, at, 0);
    write_number::<4>(text, at + 2, probes);
}

// Writes soft values, the last digits of each, from the position `at` on.
pub fn write_softs(width: Width, soft: &[i16], text: &mut [u8], at: usize)
    requires { at + length soft.now * digits_in width ≤ length text.old }
    ensures { text.new ≡ over text.old at (flat_map (last_digits (digits_in width)) soft.now) }
{
    let digits = digits_in(width);
    for (i, z) in soft.iter().enumerate() {
        write_signed(text, at + i * digits, width, *z);
    }
}
