// What a search can at most find. The laws in proofs/ say where the points of a golden-section search lie, what small numbers make, and what a sum of two
// squares tells of a distance.
#![tactic(auto)]

ghost use Rattle.std.specs.Prelude.{◌≡◌};
ghost use Rattle.bound.specs.Inside.{nearer_of, Within, Beyond};

// 2^-300, below which a square is not trusted
const LEAST: f64 = 4.909093465297727e-91;

// 1 - 2^-50, more than what the rounding of two squares and their sum can take off
const NEARLY_ONE: f64 = 0.9999999999999991;

// 1 + 2^-49, more than what the rounding of two squares, their sum and the distance can add
const BARELY_MORE: f64 = 1.0000000000000018;

const MINUS_ONE: f64 = -1.0;

// A number up to which the sum of two squares shows that the distance is within w, so that no distance is taken there: a little less than the square
// of w, or a number below every square.
pub fn within(w: f64) -> f64
    ensures { Within w result }
{
    if !plane::is_radius(w) {
        return MINUS_ONE;
    }
    if w >= LEAST {
        return w * w * NEARLY_ONE;
    }
    MINUS_ONE
}

// A number from which on the sum of two squares shows that the distance is above w, so that no distance is taken there: a little more than the square
// of w, or a NaN, which no number reaches.
pub fn beyond(w: f64) -> f64
    ensures { Beyond w result }
{
    if !plane::is_radius(w) {
        return 0.0 / 0.0;
    }
    if LEAST <= w {
        return w * w * BARELY_MORE;
    }
    0.0 / 0.0
}

// The number from low to high that is nearest to 0.
pub fn nearer(low: f64, high: f64) -> f64
    ensures { result ≡ nearer_of low high }
{
    if low > 0.0 {
        return low;
    }
    if high < 0.0 {
        return high;
    }
    0.0
}
