// What is probed of a phase: the nearest index with the counter-hypotheses of its bits, and what these cost. Costs are taken from the sizes of the sample's
// coordinates alone, with no table of points: p is 2·gain·|yi| and q is 2·gain·|yq|. The nearest point lies in the sample's quadrant, of 8 and 16 points in
// its octant, and the counter-hypotheses are mirror images of points there, so that each cost is a fixed combination of p and q.
#![tactic(auto)]

ghost use Rattle.std.specs.Prelude.{◌≡◌, ◌∷◌, suc, ◌+◌, ◌*◌, ◌^◌, ◌<◌, ◌≤◌, max, min, pos, ◌-ℤ◌, take};
ghost use Rattle.arithmetic.specs.Lists.{first};
ghost use Rattle.constellation.specs.Ranges.{max_phase_bits, IndexInRange};
ghost use Rattle.constellation.specs.Counter.{phase_counter};
ghost use Rattle.phase_costs.specs.PhaseCosts.{SizesInRange, ProductInRange, costs_by_sizes};

use points::counter::phase_counter;

// The most probes that a phase has, those of 16 points. An array of a phase's own size would need a computed const argument, which Rattle has not.
pub const MAX_PHASE_PROBES: usize = 5;

// The indices: k and the counter-hypotheses of its bits, and 0 behind them.
pub fn phase_probed(bits: usize, k: usize) -> [usize; MAX_PHASE_PROBES]
    requires { (bits ≤ max_phase_bits) × (IndexInRange bits k) }
    ensures { take (suc bits) result ≡ k ∷ first (phase_counter bits k) bits }
{
    let mut probed = [k, 0, 0, 0, 0];
    // An index: that of bit i is entry i + 1.
    for i in 0..bits {
        probed[i + 1] = phase_counter(bits, k, i);
    }
    probed
}

// Their costs, where k is the nearest index, and 0 behind them.
#[tactic(auto, unfolding(crate::specs::PhaseCosts::costs_by_sizes))]
pub fn phase_costs(bits: usize, p: u64, q: u64) -> [i64; MAX_PHASE_PROBES]
    requires { SizesInRange bits p q }
    ensures { result ≡ costs_by_sizes bits p q }
{
    let large = p.max(q);
    let small = p.min(q);
    // Each number of bits has formulas of its own.
    match bits {
        1 => [toward(0, p, 16384, q), across(16384, q, 0, p), 0, 0, 0],
        2 => [
            toward(11585, p, 11585, q),
            across(11585, q, 11585, p),
            across(11585, p, 11585, q),
            0,
            0,
        ],
        3 => [
            toward(15137, large, 6270, small),
            across(6270, q, 15137, p),
            across(6270, p, 15137, q),
            toward(6270, large, 15137, small),
            0,
        ],
        _ => {
            let outer = product(16069, large, 3196, small);
            let inner = product(13623, large, 9102, small);
            [
                difference(0, outer.max(inner)),
                across(3196, q, 16069, p),
                across(3196, p, 16069, q),
                toward(9102, large, 13623, small),
                difference(0, outer.min(inner)),
            ]
        }
    }
}

// The cost of a point in the sample's quadrant. `ProductInRange` is of four numbers of which each call has others: a struct of the four would be made for each product.
fn toward(u: u64, x: u64, v: u64, y: u64) -> i64
    requires { ProductInRange u x v y }
    ensures { result ≡ pos 0 -ℤ pos (u * x + v * y) }
{
    difference(0, product(u, x, v, y))
}

// The cost of its mirror image at an axis.
fn across(u: u64, x: u64, v: u64, y: u64) -> i64
    requires { ProductInRange u x v y }
    ensures { result ≡ pos (u * x) -ℤ pos (v * y) }
{
    difference(u * x, v * y)
}

// The inner product of (u, v) and (x, y).
fn product(u: u64, x: u64, v: u64, y: u64) -> u64
    requires { ProductInRange u x v y }
    ensures { result ≡ u * x + v * y }
{
    u * x + v * y
}

fn difference(x: u64, y: u64) -> i64
    requires { (x < 2 ^ 62) × (y < 2 ^ 62) }
    ensures { result ≡ pos x -ℤ pos y }
{
    x as i64 - y as i64
}
