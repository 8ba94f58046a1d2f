// Reading fields of hexadecimal text. What they stand for is specs/Digits and specs/TwosComplement of the crate hexadecimal.
#![tactic(auto)]

ghost use Rattle.std.specs.Prelude.{◌≡◌, ◌↔◌, true, List, ℕ, ◌+◌, ◌^◌, ◌<◌, ◌≤◌, length, IsSome, IfSome};
ghost use Rattle.hexadecimal.specs.Digits.{all_digits, number_at};
ghost use Rattle.hexadecimal.specs.TwosComplement.{signed_at};

use hexadecimal::all_digits;

// A text of which every character is a digit.
#[derive(Clone, Copy)]
pub struct HexText<'a> {
    pub characters: &'a [u8],
    pub ghost digits: { all_digits characters.now ≡ true },
    pub ghost short: { length characters.now < 2 ^ 63 },
}

impl<'a> HexText<'a> {
    // A text as one of digits, where it is one. Of the shape of `Bits::new` in constellation, with another test and a contract of its own.
    pub fn new(characters: &'a [u8]) -> Option<HexText<'a>>
        ensures digits { IsSome result ↔ (all_digits characters.now ≡ true) }
        ensures text { IfSome result (λ text. text.characters.now ≡ characters.now) }
    {
        if all_digits(characters) {
            Some(HexText { characters })
        } else {
            None
        }
    }

    // The number in the N digits from `at` on: the characters, a byte each, and so their values, the lower four bits of a character, and 9 more for a letter,
    // whose code is above 64; then two of them joined as one, two of these pairs, and the two fours.
    pub fn number<const N: usize>(self, at: usize) -> u32
        requires { (N ≤ 8) × (at + N ≤ length self.characters.now) }
        ensures value { result ≡ number_at self.entry.characters.now at N }
        ensures below { result < 16 ^ N }
    {
        let mut field = [0; 8];
        field[8 - N..].copy_from_slice(&self.characters[at..at + N]);
        let x = u64::from_be_bytes(field);
        let v = (x & 0x0f0f_0f0f_0f0f_0f0f) + 9 * ((x >> 6) & 0x0101_0101_0101_0101);
        let w = (v + (v >> 4)) & 0x00ff_00ff_00ff_00ff;
        let y = (w + (w >> 8)) & 0x0000_ffff_0000_ffff;
        ((y + (y >> 16)) & 0xffff_ffff) as u32
    }

    // The signed number in the 8 digits from `at` on.
    pub fn signed(self, at: usize) -> i32
        requires { at + 8 ≤ length self.characters.now }
        ensures { result ≡ signed_at self.entry.characters.now at 8 }
    {
        self.number::<8>(at).cast_signed()
    }
}
