// Answering a stream of lines piece by piece. What the answers to a stream are, and what a step promises, stands in specs/; its lines are cut by the crate
// line_cut.
#![tactic(auto)]

ghost use Rattle.std.specs.Prelude.{◌≡◌, List, [], ◌∷◌, ◌++◌, ℕ, ◌+◌, ◌<◌, ◌≤◌, length};
ghost use Rattle.arithmetic.specs.Lists.{over};
ghost use Rattle.line_text.specs.Answer.{refused_text};
ghost use Rattle.frame.specs.Limits.{full_limits};
ghost use Rattle.line_cut.specs.Lines.{newline};
ghost use Rattle.line_cut.specs.Cut.{Holds, HandedBack};
ghost use Rattle.line_stream.specs.Feeding.{max_answer_line, Answered, Fed, Finished};
ghost use Rattle.line_stream.specs.FoundInside.{FoundInside};

use constellation::MAX_SYMBOL_BITS;
use digit_writing::write_number;
use frame::{MAX_LINE, MAX_SYMBOLS, Refusal, SOFT_DIGITS, full_limits};
use line_call::{SymbolLists, answer_at};
use line_cut::{Found, HeldLine};
use line_text::HEAD_DIGITS;

// The characters of the longest answer, its head and the soft values of the longest frame, and with its newline.
pub const MAX_ANSWER: usize = HEAD_DIGITS + MAX_SYMBOL_BITS * MAX_SYMBOLS * SOFT_DIGITS;

pub const MAX_ANSWER_LINE: usize = MAX_ANSWER + 1;

// How far a piece of input has been answered: how many of its characters were taken, and how many were written.
#[derive(Drop)]
pub struct Progress {
    pub taken: usize,
    pub written: usize,
}

// Takes a piece of input, cut anywhere. Writes the answers to the lines that end in it at the start of `out`, and keeps the characters of the line that
// goes on in `line`, which holds nothing at the start of a stream, and then what the last call left. It stops early where `out` has no room for a longest
// answer any more; the rest of the piece is then to be handed in again. `out` should have `MAX_ANSWER_LINE` entries at least: with fewer nothing is taken.
pub fn feed(line: &mut HeldLine<MAX_LINE>, piece: &[u8], out: &mut [u8]) -> Progress
    ensures { (pending : List ℕ) → Holds line.old pending → Fed pending piece.now out.old out.new line.new result }
{
    let mut lists = SymbolLists::new();
    let mut progress = Progress {
        taken: 0,
        written: 0,
    };
    // A turn holds what is left of the piece where no line ends in it, and else answers the line that ends next. It takes as many characters as that has, which
    // no range and no iterator counts.
    while progress.taken < piece.len() && progress.written + MAX_ANSWER_LINE <= out.len() {
        let rest = &piece[progress.taken..];
        let cut = line.next_line(rest);
        let count = write_found(
            cut.found,
            rest,
            line,
            &mut out[progress.written..],
            &mut lists,
        );
        progress.taken += cut.next;
        progress.written += count;
    }
    progress
}

// Ends a stream: answers the last line if it has a character, and gives how many characters were written.
pub fn finish(line: &HeldLine<MAX_LINE>, out: &mut [u8; MAX_ANSWER_LINE]) -> usize
    ensures { (pending : List ℕ) → Holds line.now pending → Finished pending out.old out.new result }
{
    let mut lists = SymbolLists::new();
    write_found(line.last_line(), &[], line, out, &mut lists)
}

// Answers the line that was found, if one was, at the start of `out`, and gives how many characters were written.
// Room for a longest answer is asked for, here and in `write_line`: `out` is the rest of a buffer of any length, which no type says.
fn write_found(
    found: Option<Found>,
    piece: &[u8],
    line: &HeldLine<MAX_LINE>,
    out: &mut [u8],
    lists: &mut SymbolLists,
) -> usize
    requires { (FoundInside piece.now line.now.characters found) × (max_answer_line ≤ length out.old) }
    ensures { (lines : List (List ℕ)) → HandedBack piece.now line.now.characters found lines
        → Answered lines out.old out.new result }
{
    match found {
        None => 0,
        Some(Found::InPiece { end }) => write_line(&piece[..end], out, lists),
        Some(Found::InBuffer { length }) => write_line(&line.characters[..length], out, lists),
        Some(Found::TooLong) => write_refusal(Refusal::LineLength, out),
    }
}

// Writes the answer line of a line, and gives how many characters were written.
fn write_line(line: &[u8], out: &mut [u8], lists: &mut SymbolLists) -> usize
    requires { max_answer_line ≤ length out.old }
    ensures { Answered (line.now ∷ []) out.old out.new result }
{
    match answer_at(full_limits(), line, out, 0, lists) {
        Err(fault) => write_refusal(fault.refusal, out),
        Ok(length) => {
            out[length] = b'\n';
            length + 1
        }
    }
}

// Writes the answer line of a refused line, and gives how many characters were written.
fn write_refusal(refusal: Refusal, out: &mut [u8]) -> usize
    requires { 3 ≤ length out.old }
    ensures text { out.new ≡ over out.old 0 (refused_text refusal ++ (newline ∷ [])) }
    ensures count { result ≡ 3 }
{
    write_number::<2>(out, 0, u16::from(u8::from(refusal)));
    out[2] = b'\n';
    3
}
