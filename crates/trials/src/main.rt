// The program trials holds the frame call against a second demapper, which searches every point and every word, against published labels, and against the
// refusals at the edges of all ranges. It prints what it tried and, before that, each wrong entry with the frame that it stands in.
#![tactic(auto)]

mod cellular;
mod edges;
mod labels;
mod weights;

use crate::edges::try_edges;
use crate::labels::try_labels;
use crate::weights::try_weights;
use exhaustive::modulations::Modulation;
use exhaustive::weights::Weighting;
use std::{fmt, io};
use trial_draws::draws::Lehmer;
use trial_draws::schemes::{SETUPS, modulation_at};
use trial_draws::tally::Tally;
use trial_frames::random::RandomTrials;

fn main(rt: HostRuntime) -> io::Result<()> {
    let labels = try_labels(&rt)?;
    println!(rt;
        "published labels: {} points read and mapped, {} wrong",
        labels.symbols, labels.wrong
    )?;
    let edges = try_edges(&rt)?;
    println!(rt;
        "edges of the ranges: {} frames read, {} wrong",
        edges.frames, edges.wrong
    )?;
    let mut trials = RandomTrials {
        rt: &rt,
        weighting: Weighting::OneForAll,
        random: Lehmer::new(20260),
    };
    let plain = try_modulations(&mut trials)?;
    let weights = try_weights(&rt)?;
    println!(rt;
        "a weight for each symbol, edges of its range: {} frames read, {} wrong",
        weights.frames, weights.wrong
    )?;
    trials.weighting = Weighting::OneForEach;
    let weighted = try_modulations(&mut trials)?;
    println!(rt;
        "{} of these short frames read otherwise with their first weight for all symbols",
        weighted.weights_matter
    )?;
    let tried = Tried {
        labels,
        edges: edges + weights,
        random: plain + weighted,
    };
    println!(rt; "{tried}")
}

// Tries all modulations, and prints the line of each.
fn try_modulations<R: Print>(trials: &mut RandomTrials<'_, R>) -> io::Result<Tally> {
    let rt = trials.rt;
    println!(rt;
        "           symbols   frames   gain 0     ends     ties   halves    short    words    wrong"
    )?;
    let mut total = Tally::default();
    for modulation in (0..SETUPS).filter_map(modulation_at) {
        let mut tally = trials.try_modulation(modulation, symbols_to_try(modulation))?;
        tally += trials.try_words(modulation, 60)?;
        println!(rt; "{modulation}{tally}")?;
        total += tally;
    }
    println!(rt; "all    {total}")?;
    Ok(total)
}

// Modulations of two axes have more sizes than the others together, and their search takes longer.
fn symbols_to_try(modulation: Modulation) -> u64 {
    match modulation {
        Modulation::Pam(_) | Modulation::Psk(_) => 12000,
        Modulation::Qam(_, _) | Modulation::Cellular(_) => 2500,
    }
}

// What was tried in all, and how much of it was wrong: the last line.
#[derive(Clone, Copy)]
struct Tried {
    labels: Tally,
    edges: Tally,
    random: Tally,
}

impl fmt::Display for Tried {
    fn fmt<W: fmt::Write>(&self, f: &mut fmt::Formatter<W>) -> fmt::Result {
        let Tried {
            labels,
            edges,
            random,
        } = *self;
        let total = labels + edges + random;
        write!(f, "{} labels, {} edges, ", labels.symbols, edges.frames)?;
        write!(f, "{} random symbols, ", random.symbols)?;
        write!(f, "{} short frames ", random.short_frames)?;
        write!(f, "against {} words: {} wrong", random.words, total.wrong)
    }
}
