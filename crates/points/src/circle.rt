// Points of PSK, in units of 1/16384.
ghost use Rattle.std.specs.Prelude.{◌≡◌, ◌^◌, ◌<◌, ◌≤◌};
ghost use Rattle.constellation.specs.Ranges.{max_phase_bits};
ghost use Rattle.constellation.specs.Psk.{psk_point};

use crate::label::power;

// Coordinates of the points of m = 1 to 4 bits, u then v, one modulation after the other: point k of m starts at 2·(2^m − 2 + k).
pub static PSK_COORDINATES: [i64; 60] = [
    // 2 points
    0, 16384, 0, -16384,
    // 4 points
    11585, 11585, -11585, 11585, -11585, -11585, 11585, -11585,
    // 8 points
    15137, 6270, 6270, 15137, -6270, 15137, -15137, 6270, -15137, -6270, -6270, -15137, 6270,
    -15137, 15137, -6270,
    // 16 points
    16069, 3196, 13623, 9102, 9102, 13623, 3196, 16069, -3196, 16069, -9102, 13623, -13623, 9102,
    -16069, 3196, -16069, -3196, -13623, -9102, -9102, -13623, -3196, -16069, 3196, -16069, 9102,
    -13623, 13623, -9102, 16069, -3196,
];

// A point (u, v).
#[derive(Clone, Copy)]
pub struct PskPoint {
    pub u: i64,
    pub v: i64,
}

// Point k of those that have so many bits.
pub fn psk_point(bits: usize, k: usize) -> PskPoint
    requires { (1 ≤ bits) × (bits ≤ max_phase_bits) × (k < 2 ^ bits) }
    ensures u { result.u ≡ (psk_point bits k).u }
    ensures v { result.v ≡ (psk_point bits k).v }
{
    let at = 2 * (power(bits) - 2 + k);
    PskPoint {
        u: PSK_COORDINATES[at],
        v: PSK_COORDINATES[at + 1],
    }
}
