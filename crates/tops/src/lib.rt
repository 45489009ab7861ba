// Triangles that lie so low that no contact with them is above a height, as it is computed. The laws in proofs/ are on rounded sums of products.
#![tactic(auto)]

ghost use Rattle.std.specs.Prelude.{◌≡◌};
ghost use Rattle.tops.specs.Inside.{is_start, is_low, lies_low, is_apart, lies_apart, is_parted};

use plane::Triangle;

// 2^-15: a computed height is less than that above its triangle's highest corner.
pub const MARGIN: f64 = 0.000030517578125;

// -2^20, which is below every coordinate.
const DEEPEST: f64 = -1048576.0;

// Between these a walk may begin.
const LOWEST_START: f64 = -1048575.0;

const HIGHEST_START: f64 = 1048576.0;

// Whether a walk may begin at `from`.
#[tactic(auto, unfolding(crate::specs::Inside::is_start))]
pub fn is_start(from: f64) -> bool
    ensures { result ≡ is_start from }
{
    LOWEST_START <= from && from <= HIGHEST_START
}

// Whether z is a height of at most `low`.
#[tactic(auto, unfolding(crate::specs::Inside::is_low))]
fn is_low(low: f64, z: f64) -> bool
    ensures { result ≡ is_low low z }
{
    DEEPEST <= z && z <= low
}

// Whether all corners of a triangle are.
#[tactic(auto, unfolding(crate::specs::Inside::lies_low))]
pub fn lies_low(low: f64, t: Triangle) -> bool
    ensures { result ≡ lies_low low t }
{
    is_low(low, t.az) && (is_low(low, t.bz) && is_low(low, t.cz))
}

// Whether a height is above `from` or lies low.
#[tactic(auto, unfolding(crate::specs::Inside::is_apart))]
fn is_apart(low: f64, from: f64, z: f64) -> bool
    ensures { result ≡ is_apart low from z }
{
    if z > from { true } else { is_low(low, z) }
}

// Whether all corners of a triangle are.
#[tactic(auto, unfolding(crate::specs::Inside::lies_apart))]
pub fn lies_apart(low: f64, from: f64, t: Triangle) -> bool
    ensures { result ≡ lies_apart low from t }
{
    is_apart(low, from, t.az) && (is_apart(low, from, t.bz) && is_apart(low, from, t.cz))
}

// Whether a triangle with this top has its contact on one side of `from`: its top is above, and each corner above or low; or all lie low.
#[tactic(auto, unfolding(crate::specs::Inside::is_parted))]
pub fn is_parted(from: f64, top: f64, t: Triangle) -> bool
    ensures { result ≡ is_parted from top t }
{
    let low = from - MARGIN;
    if top <= from {
        lies_low(low, t)
    } else {
        lies_apart(low, from, t)
    }
}
