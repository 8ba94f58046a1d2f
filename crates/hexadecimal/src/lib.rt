// Hexadecimal text: whether its characters are digits. What digits and fields stand for is specs/Digits and specs/TwosComplement.
#![tactic(auto)]

ghost use Rattle.std.specs.Prelude.{◌≡◌, ◌*◌, ◌/◌, length, get_or};
ghost use Rattle.arithmetic.specs.Tests.{all_below};
ghost use Rattle.hexadecimal.specs.Digits.{is_digit, all_digits};

// Whether a character is one of 0-9 and A-F.
#[tactic(auto, unfolding(crate::specs::Digits::is_digit))]
pub fn is_digit(c: u8) -> bool
    ensures { result ≡ is_digit c }
{
    (b'0' <= c && c <= b'9') || (b'A' <= c && c <= b'F')
}

// So many characters are looked at together.
const BLOCK: usize = 16;

// Whether every character is a digit: the last block, which may overlap the one before it, then block by block, up to the first that has another character.
pub fn all_digits(text: &[u8]) -> bool
    ensures { result ≡ all_digits text.now }
{
    match text.last_chunk::<BLOCK>() {
        None => digits_alone(text),
        Some(last) => digits_alone(last) && whole_blocks(text),
    }
}

// The same, of all characters but those behind the last whole block.
fn whole_blocks(text: &[u8]) -> bool
    ensures { result ≡ all_below (length text.now / 16 * 16) (λ i. is_digit (get_or text.now i 0)) }
{
    let (blocks, _) = text.as_chunks::<BLOCK>();
    blocks.iter().all(|block| digits_alone(block))
}

// The same, of a few characters. The fold has no branch.
fn digits_alone(text: &[u8]) -> bool
    ensures { result ≡ all_digits text.now }
{
    text.iter().fold(true, |all, c| all & is_digit(*c))
}
