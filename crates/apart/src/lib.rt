// Whether a triangle surely lies apart from what is asked about, so that its points need no look. Only orders of numbers are compared; a false says nothing.
#![tactic(auto)]

ghost use Rattle.std.specs.Prelude.{true, cond, ◌≡◌};
ghost use Rattle.std.specs.Float.Ieee.{lt};
ghost use Rattle.apart.specs.Inside.{low_on, high_on, lowest_on, highest_on, Ahead, Behind, Fine, Apart};

// Whether on one coordinate, whose corners are a, b and c, all corners and edges lie farther from the segment p-q than the root of limit. `reach` only
// says from where on a look pays.
pub fn apart(a: f64, b: f64, c: f64, p: f64, q: f64, reach: f64, limit: f64) -> bool
    ensures { result ≡ true → Apart a b c p q limit }
{
    if lesser(lesser(a, b), c) > larger(p, q) + reach {
        return over(a, b, c, p, q, limit);
    }
    if larger(larger(a, b), c) < lesser(p, q) - reach {
        return below(a, b, c, p, q, limit);
    }
    false
}

// The smaller of two numbers; the second where either is a NaN.
fn lesser(a: f64, b: f64) -> f64
    ensures { result ≡ cond (lt a b) a b }
{
    if a < b { a } else { b }
}

// The larger, in the same way.
fn larger(a: f64, b: f64) -> f64
    ensures { result ≡ cond (lt b a) a b }
{
    if a > b { a } else { b }
}

// Whether they lie below the segment, that far.
fn below(a: f64, b: f64, c: f64, p: f64, q: f64, limit: f64) -> bool
    ensures { result ≡ true → Apart a b c p q limit }
{
    if fine(a, b, c, p, q) {
        let low = low_on(p, q);
        return ahead(low - highest_on(a, b, c), limit);
    }
    false
}

// Whether they lie over it, that far.
fn over(a: f64, b: f64, c: f64, p: f64, q: f64, limit: f64) -> bool
    ensures { result ≡ true → Apart a b c p q limit }
{
    if fine(a, b, c, p, q) {
        let high = high_on(p, q);
        return behind(high - lowest_on(a, b, c), limit);
    }
    false
}

// Whether a way leads up, and its square exceeds the limit.
fn ahead(d: f64, limit: f64) -> bool
    ensures { result ≡ true → Ahead d limit }
{
    if d > 0.0 {
        return d * d > limit;
    }
    false
}

// Whether it leads down, and its square exceeds the limit.
fn behind(d: f64, limit: f64) -> bool
    ensures { result ≡ true → Behind d limit }
{
    if d < 0.0 {
        return d * d > limit;
    }
    false
}

// Whether the ends of all four ways, as they are computed, are finite: their sum is of ordinary size.
pub fn fine(a: f64, b: f64, c: f64, p: f64, q: f64) -> bool
    ensures { result ≡ true → Fine a b c p q }
{
    let ab = a + 1.0 * (b - a);
    let bc = b + 1.0 * (c - b);
    let ca = c + 1.0 * (a - c);
    let pq = p + 1.0 * (q - p);
    numbers::abs(ab + bc + ca + pq) <= 1e7
}

// The smaller of the two ends of the way from a to b, as points of the way are computed.
#[tactic(auto, unfolding(crate::specs::Inside::low_on))]
fn low_on(a: f64, b: f64) -> f64
    ensures { result ≡ low_on a b }
{
    numbers::min(a, a + 1.0 * (b - a))
}

// The larger of them.
#[tactic(auto, unfolding(crate::specs::Inside::high_on))]
fn high_on(a: f64, b: f64) -> f64
    ensures { result ≡ high_on a b }
{
    numbers::max(a, a + 1.0 * (b - a))
}

// The smallest number on the three ways between a, b and c.
#[tactic(auto, unfolding(crate::specs::Inside::lowest_on))]
pub fn lowest_on(a: f64, b: f64, c: f64) -> f64
    ensures { result ≡ lowest_on a b c }
{
    let ab = low_on(a, b);
    let bc = low_on(b, c);
    let ca = low_on(c, a);
    numbers::min(numbers::min(ab, bc), ca)
}

// The largest.
#[tactic(auto, unfolding(crate::specs::Inside::highest_on))]
pub fn highest_on(a: f64, b: f64, c: f64) -> f64
    ensures { result ≡ highest_on a b c }
{
    let ab = high_on(a, b);
    let bc = high_on(b, c);
    let ca = high_on(c, a);
    numbers::max(numbers::max(ab, bc), ca)
}
