// The nearest index of a phase, without a search: by one to five comparisons.
#![tactic(auto)]

ghost use Rattle.std.specs.Prelude.{◌≡◌, ◌≤◌, pos, nat_abs};
ghost use Rattle.constellation.specs.Ranges.{PhaseInRange, max_sample};
ghost use Rattle.constellation.specs.Parts.{phase};

// Of two points the half, of four the quadrant, and else sixteenths of the circle, taken together by as many as the modulation
// has points. On an edge between two points both cost the same, and the smaller index is taken.
// `PhaseInRange` is a fact of four numbers that differ from call to call: a type that held it would carry the others once more in each.
pub fn nearest_phase(bits: usize, gain: u64, yi: i64, yq: i64) -> usize
    requires { PhaseInRange bits gain yi yq }
    ensures { result ≡ (phase bits gain yi yq).nearest }
{
    if gain == 0 {
        return 0;
    }
    // Each number of bits has a formula of its own.
    match bits {
        1 => usize::from(yq < 0),
        2 => quarter(yi, yq),
        _ => sixteenth(yi, yq) >> (4 - bits),
    }
}

// The nearest of four phases: the quadrant.
fn quarter(yi: i64, yq: i64) -> usize
    requires { (nat_abs yi ≤ max_sample) × (nat_abs yq ≤ max_sample) }
    ensures { result ≡ (phase 2 1 yi yq).nearest }
{
    let below = usize::from(yq < 0);
    let left = usize::from(yi < below as i64);
    2 * below + (left + below) % 2
}

// The nearest of sixteen phases: the quadrant, and in it the nearest of four.
fn sixteenth(yi: i64, yq: i64) -> usize
    requires { (nat_abs yi ≤ max_sample) × (nat_abs yq ≤ max_sample) }
    ensures { result ≡ (phase 4 1 yi yq).nearest }
{
    let quadrant = quarter(yi, yq);
    let across = yi.unsigned_abs();
    let up = yq.unsigned_abs();
    let (x, y) = if quadrant % 2 == 0 {
        (across, up)
    } else {
        (up, across)
    };
    4 * quadrant + of_first_quadrant(x, y)
}

// The nearest of sixteen phases to a sample of the first quadrant: how many of the edges between its four points lie before the sample. The
// numbers are the differences of neighbouring points.
fn of_first_quadrant(x: u64, y: u64) -> usize
    requires { (x ≤ max_sample) × (y ≤ max_sample) }
    ensures { result ≡ (phase 4 1 (pos x) (pos y)).nearest }
{
    usize::from(2446 * x < 5906 * y) + usize::from(x < y) + usize::from(5906 * x < 2446 * y)
}
