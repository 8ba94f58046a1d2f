// Cutting an input that comes in pieces into lines. A step hands the next whole line back, wherever it stands; what is made of a line is the caller's. What the
// lines of an input are, and what a step hands back, stands in specs/.
#![tactic(auto)]

ghost use Rattle.std.specs.Prelude.{◌≡◌, List, [], ◌++◌, ℕ, ◌<◌, ◌≤◌, length};
ghost use Rattle.line_cut.specs.Lines.{last_line};
ghost use Rattle.line_cut.specs.Cut.{HoldsIn, Holds, HandedBack, CutFromIn, CutFrom};

use memchr::memchr;

// Where a whole line stands.
#[derive(Drop)]
pub enum Found {
    // at the start of the piece, up to here
    InPiece { end: usize },
    // at the start of the line buffer, so many characters
    InBuffer { length: usize },
    // nowhere: it is longer than the line buffer
    TooLong,
}

// The line that a step finds, if one ends in the piece, and how much of the piece it has passed.
#[derive(Drop)]
pub struct Cut {
    pub found: Option<Found>,
    pub next: usize,
}

// How much of a line is held in a line buffer.
#[derive(Clone, Copy)]
pub enum Held {
    // all of it, so many characters; more than the line buffer has room for count as Beyond
    Within { length: usize },
    // none of it: it is longer than the line buffer
    Beyond,
}

// The characters behind the last newline of an input, as far as it is given: a line that goes on in the next piece. Those that are held stand at the start of
// the line buffer. Every value is served.
// The line buffer is an array with a number beside it, since nothing is kept on a heap.
#[derive(Drop)]
pub struct HeldLine<const ROOM: usize> {
    pub characters: [u8; ROOM],
    pub held: Held,
}

impl<const ROOM: usize> HeldLine<ROOM> {
    // At the start of an input nothing is held, whatever stands in the line buffer.
    pub fn new(characters: [u8; ROOM]) -> Self
        ensures held { Holds result [] }
        ensures characters { result.characters ≡ characters.entry }
    {
        HeldLine {
            characters,
            held: Held::Within { length: 0 },
        }
    }

    // Looks for the next line in a piece, or in what is left of one. Where no line ends in it, all of it is held, and else nothing.
    pub fn next_line(&mut self, piece: &[u8]) -> Cut
        requires { 0 < length piece.now }
        ensures { (pending : List ℕ) → Holds self.old pending → CutFrom pending piece.now self.new result }
    {
        next_line(&mut self.held, piece, &mut self.characters[..])
    }

    // The last line, which no newline has ended: nothing where it has no character. It stands in no piece.
    pub fn last_line(&self) -> Option<Found>
        ensures { (pending : List ℕ) → Holds self.now pending → (piece : List ℕ)
            → HandedBack piece self.now.characters result (last_line pending) }
    {
        last_line(self.held, &self.characters[..])
    }
}

// Looks for the next line as `HeldLine` does, with a line buffer of any length and how much of a line is held in it.
pub fn next_line(held: &mut Held, piece: &[u8], buffer: &mut [u8]) -> Cut
    requires { 0 < length piece.now }
    ensures { (pending : List ℕ) → HoldsIn held.old buffer.old pending
        → CutFromIn pending piece.now held.new buffer.new result }
{
    match memchr(b'\n', piece) {
        None => {
            hold(held, piece, buffer);
            Cut {
                found: None,
                next: piece.len(),
            }
        }
        Some(end) => {
            let found = match *held {
                Held::Within { length: 0 } => Some(Found::InPiece { end }),
                _ => {
                    hold(held, &piece[..end], buffer);
                    last_line(*held, buffer)
                }
            };
            *held = Held::Within { length: 0 };
            Cut {
                found,
                next: end + 1,
            }
        }
    }
}

// The last line, as `HeldLine` gives it.
pub fn last_line(held: Held, buffer: &[u8]) -> Option<Found>
    ensures { (pending : List ℕ) → HoldsIn held buffer.now pending → (piece : List ℕ)
        → HandedBack piece buffer.now result (last_line pending) }
{
    match held {
        Held::Within { length: 0 } => None,
        Held::Within { length } if length <= buffer.len() => Some(Found::InBuffer { length }),
        _ => Some(Found::TooLong),
    }
}

// Holds further characters behind those held, where the line buffer has room for them.
fn hold(held: &mut Held, more: &[u8], buffer: &mut [u8])
    ensures { (pending : List ℕ) → HoldsIn held.old buffer.old pending
        → HoldsIn held.new buffer.new (pending ++ more.now) }
{
    let room = buffer.len();
    match *held {
        Held::Within { length } if length <= room && more.len() <= room - length => {
            buffer[length..length + more.len()].copy_from_slice(more);
            *held = Held::Within {
                length: length + more.len(),
            };
        }
        _ => *held = Held::Beyond,
    }
}
