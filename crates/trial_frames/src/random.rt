// Random frames of a modulation: long ones against the search of every point, and short ones also against all of their rival words (REQUIREMENTS, "Words";
// demand 3).
use crate::answers::Wanted;
use crate::calls::{Call, Lent};
use crate::words::weights_matter;
use exhaustive::frames::Frame;
use exhaustive::modulations::Modulation;
use exhaustive::weights::Weighting;
use std::io;
use trial_draws::draws::{Lehmer, Plan, Symbols};
use trial_draws::tally::Tally;

// Trials of random frames, by where wrong entries are printed, how many weights a frame has, and what is drawn from.
#[derive(Drop)]
pub struct RandomTrials<'a, R: Print> {
    pub rt: &'a R,
    pub weighting: Weighting,
    pub random: Lehmer,
}

impl<'a, R: Print> RandomTrials<'a, R> {
    // Tries so many symbols of a modulation, in frames of 1 to 256. A turn of the loop draws how much of what is left it takes, so it counts no index.
    pub fn try_modulation(&mut self, modulation: Modulation, symbols: u64) -> io::Result<Tally> {
        let mut tally = Tally::default();
        let mut left = symbols;
        while left > 0 {
            let count = self.random.count(left);
            tally += self.try_frame(modulation, count as usize)?;
            left -= count;
        }
        Ok(tally)
    }

    // Tries a frame of so many symbols.
    fn try_frame(&mut self, modulation: Modulation, count: usize) -> io::Result<Tally> {
        let plan = Plan::draw(modulation, self.weighting, &mut self.random);
        let symbols = plan.symbols(256, &mut self.random);
        let call = self.call(plan, count, &symbols);
        let mut tally = match call.frame() {
            // Among the ends are also those of the coordinates that were drawn for PAM, which leaves them out.
            Ok(frame) => Tally::of(&Frame {
                yq: &symbols.yq,
                ..frame
            }),
            Err(_) => Tally::default(),
        };
        tally.wrong = call.wrong(self.rt, Wanted::Points)?;
        Ok(tally)
    }

    // Tries so many frames of a modulation whose symbols have at most 12 bits in all.
    pub fn try_words(&mut self, modulation: Modulation, frames: u64) -> io::Result<Tally> {
        let mut tally = Tally::default();
        for _ in 0..frames {
            tally += self.try_short_frame(modulation)?;
        }
        Ok(tally)
    }

    // Tries a frame of one symbol or a few, with padding or without.
    fn try_short_frame(&mut self, modulation: Modulation) -> io::Result<Tally> {
        let plan = Plan::draw(modulation, self.weighting, &mut self.random);
        let symbols = plan.symbols(12, &mut self.random);
        let count = plan.few(&mut self.random);
        let call = self.call(plan, count, &symbols);
        Ok(Tally {
            short_frames: 1,
            words: 1 << count.saturating_mul(modulation.bits()).min(12),
            weights_matter: u64::from(call.frame().is_ok_and(|frame| weights_matter(&frame))),
            wrong: call.wrong(self.rt, Wanted::Words)?,
            ..Tally::default()
        })
    }

    // A frame of so many of these symbols, with room for the longest.
    fn call<'b>(&mut self, plan: Plan, count: usize, symbols: &'b Symbols) -> Call<'b> {
        let extent = plan.extent(count, &mut self.random);
        let header = plan.header(extent.payload(), &mut self.random);
        let lent = Lent::ample(count, extent.weights(), extent.quadratures());
        Call::new(header, lent, symbols)
    }
}
