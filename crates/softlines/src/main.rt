// The program softlines (REQUIREMENTS, "Lines"): reads lines from standard input and prints an answer line for each. It only reads, calls and writes; lines
// and answers are the work of the crate `line_stream`. A read or a write that fails ends it with a message; a line that was not read to its end is then not
// answered.
#![tactic(auto)]

ghost use Rattle.std.specs.Prelude.{List, ℕ, IfOk};
ghost use Rattle.line_cut.specs.Lines.{pending_after};
ghost use Rattle.line_cut.specs.Cut.{Holds};

use frame::MAX_LINE;
use line_cut::HeldLine;
use line_stream::{MAX_ANSWER_LINE, feed, finish};
use std::io::{Eprint, Read, Write};
use std::{fmt, io};

// Reading the input or writing the answers failed.
#[derive(Drop)]
enum Failure {
    Input(io::Error),
    Output(io::Error),
}

impl fmt::Display for Failure {
    fn fmt<W: fmt::Write>(&self, f: &mut fmt::Formatter<W>) -> fmt::Result {
        match self {
            Failure::Input(error) => write!(f, "standard input: {error}"),
            Failure::Output(error) => write!(f, "standard output: {error}"),
        }
    }
}

// How much is read at once.
const PIECE: usize = 65536;

// Room for answers: 64 KB and one longest answer, so that more than 64 KB are there whenever they are written before their piece ends.
const ROOM: usize = 65536 + MAX_ANSWER_LINE;

fn main(rt: HostRuntime) {
    answer(&rt, &mut rt.stdin(), &mut rt.stdout());
}

// Answers the whole input. What fails is said at the place for messages; where that can't be done either, nothing is left to be done.
fn answer(errors: &impl Eprint, input: &mut impl Read, output: &mut impl Write) {
    // The requirements fix the text of this array; the compiler holds it to the longest line.
    let characters: [u8; MAX_LINE] = [0; 6164];
    let mut line = HeldLine::new(characters);
    let mut piece = [0u8; PIECE];
    let mut out = [0u8; ROOM];
    let answered = answer_all(input, output, &mut line, &mut piece, &mut out);
    if let Err(failure) = answered {
        let _ = eprintln!(errors; "softlines: {failure}");
    }
}

// Answers until the input ends. A proved loop has to end, and nothing says that an input does, so the turns are counted, up to a number that no run reaches.
fn answer_all(
    input: &mut impl Read,
    output: &mut impl Write,
    line: &mut HeldLine<MAX_LINE>,
    piece: &mut [u8],
    out: &mut [u8; ROOM],
) -> Result<(), Failure> {
    for _ in 0..u64::MAX {
        match input.read(piece).map_err(Failure::Input)? {
            0 => return answer_last(output, line),
            n => answer_piece(output, line, &piece[..n], out)?,
        }
    }
    Ok(())
}

// The line is handed from step to step beside the output, and no struct of both: each is lent by another.
// Answers the lines that end in a piece of input, and prints the answers as often as their buffer is full. Where that goes well, what is pending behind the
// piece is held.
fn answer_piece(
    output: &mut impl Write,
    line: &mut HeldLine<MAX_LINE>,
    piece: &[u8],
    out: &mut [u8; ROOM],
) -> Result<(), Failure>
    ensures { IfOk result (λ done. (pending : List ℕ) → Holds line.old pending → Holds line.new (pending_after pending piece.now)) }
{
    let mut taken = 0;
    // How much a turn takes, `feed` says: no range and no iterator counts it.
    while taken < piece.len() {
        let done = feed(line, &piece[taken..], out);
        print(output, &out[..done.written])?;
        taken += done.taken;
    }
    Ok(())
}

// Answers the last line.
fn answer_last(output: &mut impl Write, line: &HeldLine<MAX_LINE>) -> Result<(), Failure> {
    let mut out: [u8; MAX_ANSWER_LINE] = [0; MAX_ANSWER_LINE];
    let written = finish(line, &mut out);
    print(output, &out[..written])
}

// Writes answers out.
fn print(output: &mut impl Write, text: &[u8]) -> Result<(), Failure> {
    output.write_all(text).map_err(Failure::Output)
}
