// Answers held against all rival words of a short frame (REQUIREMENTS, "Words"; demand 3).
use crate::judge::Judge;
use exhaustive::frames::{Buffers, ENTRIES, Frame};
use exhaustive::tables::{Entry, MAX_ENTRIES};
use exhaustive::weights::Weights;
use exhaustive::words::search_words;
use std::io;

// How much of an answer the costs of all words contradict: no word costs less than each that begins with the hard bits, and each soft value, and each
// difference that the probes show, times the weight of its symbol, is that of the least costs of the words with the bit 1 and with the bit 0. Words have 12 bits
// at most.
pub fn contradicted(rt: &impl Print, frame: &Frame<'_>, got: &Buffers) -> io::Result<u64> {
    let settings = frame.settings;
    let mut room = [Entry::NONE; MAX_ENTRIES];
    let words = search_words(frame, &mut room);
    let payload = settings.payload.min(ENTRIES);
    let mut judge = Judge::new(rt);
    judge.entry(
        "cost of the hard word, of bits",
        words.bits,
        &words.least_beginning(&got.hard[..payload]),
        &words.least(|_| true),
    )?;
    for (place, soft) in got.soft[..payload].iter().enumerate() {
        let by_words = words.difference(place);
        let symbol = frame.symbol_at(place / settings.modulation.bits().max(1));
        let shown = got
            .difference_shown(settings.modulation, place)
            .saturating_mul(symbol.weight);
        judge.entry("difference shown for bit", place, &shown, &by_words)?;
        let wanted = settings.soft_value(by_words);
        judge.entry("soft value by words", place, soft, &wanted)?;
    }
    Ok(judge.wrong)
}

// Whether the weights of a short frame matter: with the first of them for all symbols, its words would give other soft values.
pub fn weights_matter(frame: &Frame<'_>) -> bool {
    let Weights::OneForEach(weights) = frame.weights else {
        return false;
    };
    let first = weights.first().map_or(1, |weight| i64::from(*weight));
    let equal = Frame {
        weights: Weights::OneForAll(first),
        ..*frame
    };
    softs_by_words(frame) != softs_by_words(&equal)
}

// The soft values of a short frame, each of the least costs of the words with the bit 1 and with the bit 0.
fn softs_by_words(frame: &Frame<'_>) -> [i16; 12] {
    let mut softs = [0; 12];
    let mut room = [Entry::NONE; MAX_ENTRIES];
    let words = search_words(frame, &mut room);
    let payload = frame.settings.payload;
    for (place, soft) in softs.iter_mut().take(payload).enumerate() {
        *soft = frame.settings.soft_value(words.difference(place));
    }
    softs
}
