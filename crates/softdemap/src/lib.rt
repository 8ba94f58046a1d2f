// The calls exported to C. include/softdemap.h declares them and says what each buffer holds; a slice passes as a pointer and a length.
// Every value of the types is an input and has its answer: there is no `requires`. C hands each number and each list over by itself, so they stand side by side.
#![tactic(auto)]

ghost use Rattle.std.specs.Prelude.{[], ◌∷◌};
ghost use Rattle.demapper.specs.Reading.{buffers};
ghost use Rattle.frame.specs.Frame.{frame_from, header_from};
ghost use Rattle.frame.specs.Mapping.{message_from};
ghost use Rattle.capture.specs.declared.Sample.TheVariants.{Single, Pair};
ghost use Rattle.capture.specs.Capture.{recording_from};
ghost use Rattle.softdemap.specs.Numbers.{SizesCalled, FrameCalled, MapCalled, LineCalled};
ghost use Rattle.softdemap.specs.Numbers.{SampleCalled, CaptureCalled, SoftCalled, SoftsCalled};

use call_numbers::{answer_number, capture_number, frame_number, hand_out, hand_out_sizes};
use capture::{Capture, QuadratureSample, Sample, convert_sample};
use capture_call::convert_capture;
use capture_out::{convert_soft, convert_softs};
use demapper::OutputBuffers;
use frame::{Header, MessageBits, Signal};
use frame_call::demap_frame;
use line_call::answer_line;
use map_call::map_bits;
use sizes::header_sizes;

// What a header calls for. Returns the refusal, or 0.
#[unsafe(no_mangle)]
pub extern "C" fn softdemap_sizes(
    kind: u8,
    bits_i: u8,
    bits_q: u8,
    payload: u16,
    weight: u16,
    shift: u8,
    limit: u16,
    symbols: &mut u32,
    quadrature: &mut u32,
    probes: &mut u32,
    line: &mut u32,
    answer: &mut u32,
) -> u32
    ensures { SizesCalled (header_from kind bits_i bits_q payload weight shift limit)
        (symbols.old ∷ quadrature.old ∷ probes.old ∷ line.old ∷ answer.old ∷ [])
        (symbols.new ∷ quadrature.new ∷ probes.new ∷ line.new ∷ answer.new ∷ []) result }
{
    let header = Header {
        kind,
        bits_i,
        bits_q,
        payload,
        weight,
        shift,
        limit,
    };
    hand_out_sizes(
        header_sizes(header),
        symbols,
        quadrature,
        probes,
        line,
        answer,
    )
}

// Reads a frame with no weights in the list. Returns refusal + 256 · symbol, or the number of probes times 2^32.
#[unsafe(no_mangle)]
pub extern "C" fn softdemap_frame(
    kind: u8,
    bits_i: u8,
    bits_q: u8,
    payload: u16,
    weight: u16,
    shift: u8,
    limit: u16,
    gains: &[u16],
    yi: &[i32],
    yq: &[i32],
    hard: &mut [u8],
    soft: &mut [i16],
    probe_index: &mut [u8],
    probe_cost: &mut [i64],
) -> u64
    ensures { FrameCalled
        (frame_from (header_from kind bits_i bits_q payload weight shift limit) gains.now [] yi.now yq.now)
        (buffers hard.old soft.old probe_index.old probe_cost.old)
        (buffers hard.new soft.new probe_index.new probe_cost.new) result }
{
    softdemap_frame_weighted(
        kind,
        bits_i,
        bits_q,
        payload,
        weight,
        shift,
        limit,
        gains,
        &[],
        yi,
        yq,
        hard,
        soft,
        probe_index,
        probe_cost,
    )
}

// Reads a frame, with a list of weights that a plain kind has empty. Returns refusal + 256 · symbol, or the number of probes times 2^32. The hint: the call
// without weights is made of a copy in which the list is empty.
#[inline(always)]
#[unsafe(no_mangle)]
pub extern "C" fn softdemap_frame_weighted(
    kind: u8,
    bits_i: u8,
    bits_q: u8,
    payload: u16,
    weight: u16,
    shift: u8,
    limit: u16,
    gains: &[u16],
    weights: &[u16],
    yi: &[i32],
    yq: &[i32],
    hard: &mut [u8],
    soft: &mut [i16],
    probe_index: &mut [u8],
    probe_cost: &mut [i64],
) -> u64
    ensures { FrameCalled
        (frame_from (header_from kind bits_i bits_q payload weight shift limit) gains.now weights.now yi.now yq.now)
        (buffers hard.old soft.old probe_index.old probe_cost.old)
        (buffers hard.new soft.new probe_index.new probe_cost.new) result }
{
    let header = Header {
        kind,
        bits_i,
        bits_q,
        payload,
        weight,
        shift,
        limit,
    };
    let signal = Signal {
        gains,
        weights,
        yi,
        yq,
    };
    let mut out = OutputBuffers {
        hard,
        soft,
        indices: probe_index,
        costs: probe_cost,
    };
    frame_number(demap_frame(header, signal, &mut out))
}

// Maps bits to samples without noise. Returns the refusal, or 0.
#[unsafe(no_mangle)]
pub extern "C" fn softdemap_map(
    kind: u8,
    bits_i: u8,
    bits_q: u8,
    gain: u16,
    bits: &[u8],
    yi: &mut [i32],
    yq: &mut [i32],
) -> u32
    ensures { MapCalled (message_from kind bits_i bits_q gain bits.now) yi.old yq.old yi.new
        yq.new result }
{
    let message = MessageBits {
        kind,
        bits_i,
        bits_q,
        gain,
        bits,
    };
    answer_number(map_bits(message, yi, yq))
}

// Answers a line: writes the answer's text at the start of `answer`. Returns refusal + 256 · symbol, or 0.
#[unsafe(no_mangle)]
pub extern "C" fn softdemap_line(line: &[u8], answer: &mut [u8]) -> u32
    ensures { LineCalled line.now answer.old answer.new result }
{
    answer_number(answer_line(line, answer))
}

// Converts a sample of PAM, one binary32 number, at the scale F. Returns the refusal, or 0.
#[unsafe(no_mangle)]
pub extern "C" fn softdemap_sample_i32(scale: u8, x: f32, y: &mut i32) -> u32
    ensures { SampleCalled scale (Single x) (y.old ∷ []) (y.new ∷ []) result }
{
    let mut second = 0;
    hand_out(convert_sample(scale, Sample::Single(x)), y, &mut second)
}

// Converts a quadrature sample, a pair of binary32 numbers, at the scale F. Returns the refusal, or 0.
#[unsafe(no_mangle)]
pub extern "C" fn softdemap_quadrature_i32(
    scale: u8,
    in_phase: f32,
    quadrature: f32,
    yi: &mut i32,
    yq: &mut i32,
) -> u32
    ensures { SampleCalled scale (Pair (record { in_phase = in_phase; quadrature = quadrature })) (yi.old ∷ yq.old ∷ [])
        (yi.new ∷ yq.new ∷ []) result }
{
    let pair = QuadratureSample {
        in_phase,
        quadrature,
    };
    hand_out(convert_sample(scale, Sample::Pair(pair)), yi, yq)
}

// Converts a capture, one number a sample for PAM, else in-phase and quadrature by turns, at the scale F.
// Returns refusal + 256 · sample, or 0.
#[unsafe(no_mangle)]
pub extern "C" fn softdemap_samples_i32(
    kind: u8,
    scale: u8,
    capture: &[f32],
    yi: &mut [i32],
    yq: &mut [i32],
) -> u64
    ensures { CaptureCalled (recording_from kind scale capture.now) yi.old yq.old yi.new
        yq.new result }
{
    let capture = Capture {
        kind,
        scale,
        numbers: capture,
    };
    capture_number(convert_capture(capture, yi, yq))
}

// Converts a soft value at the scale f. Returns the refusal, or 0.
#[unsafe(no_mangle)]
pub extern "C" fn softdemap_soft_f32(scale: u8, soft: i16, x: &mut f32) -> u32
    ensures { SoftCalled scale soft x.old x.new result }
{
    match convert_soft(scale, soft) {
        Err(refusal) => u8::from(refusal).into(),
        Ok(value) => {
            *x = value;
            0
        }
    }
}

// Converts soft values at the scale f. Returns the refusal, or 0.
#[unsafe(no_mangle)]
pub extern "C" fn softdemap_softs_f32(scale: u8, soft: &[i16], x: &mut [f32]) -> u32
    ensures { SoftsCalled scale soft.now x.old x.new result }
{
    answer_number(convert_softs(scale, soft, x).map_err(|fault| fault.refusal))
}
