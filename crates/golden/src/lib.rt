// The golden-section search, cut at its objective: whoever searches evaluates the objective at the point that `probe` names and hands the value to `narrowed`.
#![tactic(auto)]

ghost use Rattle.std.specs.Prelude.{◌≡◌, ◌&&◌};
ghost use Rattle.golden.specs.Phi.{phi_of, phi60_of};
ghost use Rattle.golden.specs.Search.{lower, upper, rises, falls, probe_of, narrowed_of, start_of, best_of, bound_of};
ghost use Rattle.golden.specs.Upper.{finite_of, held_of, all_low, outer_of, from_a, from_b, secants_of, upper_from, upper_of};

// phi, (root 5 - 1) / 2
pub const PHI: f64 = 0.6180339887498949;

// phi to the 60th, by 59 multiplications
pub const PHI_60: f64 = 2.8889603743499235e-13;

const MINUS_ONE: f64 = -1.0;

// A bracket a..b, its two inner points and the values there.
#[derive(Clone, Copy)]
pub struct Golden {
    pub a: f64,
    pub b: f64,
    pub x1: f64,
    pub x2: f64,
    pub f1: f64,
    pub f2: f64,
}

// The same with the values at its ends.
#[derive(Clone, Copy)]
pub struct Bracket {
    pub g: Golden,
    pub fa: f64,
    pub fb: f64,
}

// The lower inner point of a bracket.
pub fn lower_point(a: f64, b: f64) -> f64
    ensures { result ≡ lower a b }
{
    b - PHI * (b - a)
}

// The upper inner point of a bracket.
pub fn upper_point(a: f64, b: f64) -> f64
    ensures { result ≡ upper a b }
{
    a + PHI * (b - a)
}

// The bracket lo..hi, with the values at its inner points.
#[tactic(auto, unfolding(crate::specs::Search::start_of))]
pub fn start(lo: f64, hi: f64, v1: f64, v2: f64) -> Golden
    ensures { result ≡ start_of lo hi v1 v2 }
{
    let x1 = lower_point(lo, hi);
    let x2 = upper_point(lo, hi);
    Golden {
        a: lo,
        b: hi,
        x1,
        x2,
        f1: v1,
        f2: v2,
    }
}

// Whether a search for the largest value drops the left part.
pub fn drops_low(g: Golden) -> bool
    ensures { result ≡ rises g }
{
    g.f1 < g.f2
}

// Whether a search for the least value drops the left part.
pub fn drops_high(g: Golden) -> bool
    ensures { result ≡ falls g }
{
    g.f1 > g.f2
}

// The point that the next step looks at.
#[tactic(auto, unfolding(crate::specs::Search::probe_of))]
pub fn probe(left: bool, g: Golden) -> f64
    ensures { result ≡ probe_of left g }
{
    if left {
        upper_point(g.x1, g.b)
    } else {
        lower_point(g.a, g.x2)
    }
}

// The bracket after a step that found the value v at the point p.
#[tactic(auto, unfolding(crate::specs::Search::narrowed_of))]
pub fn narrowed(left: bool, g: Golden, p: f64, v: f64) -> Golden
    ensures { result ≡ narrowed_of left g p v }
{
    if left {
        Golden {
            a: g.x1,
            b: g.b,
            x1: g.x2,
            x2: p,
            f1: g.f2,
            f2: v,
        }
    } else {
        Golden {
            a: g.a,
            b: g.x2,
            x1: p,
            x2: g.x1,
            f1: v,
            f2: g.f1,
        }
    }
}

// The best of four values.
#[tactic(auto, unfolding(crate::specs::Search::best_of))]
pub fn best(va: f64, vb: f64, v1: f64, v2: f64) -> f64
    ensures { result ≡ best_of va vb v1 v2 }
{
    numbers::max(numbers::max(numbers::max(va, vb), v1), v2)
}

// What 60 steps on lo..hi may have missed, added to the best value.
#[tactic(auto, unfolding(crate::specs::Search::bound_of))]
pub fn bound(best: f64, lo: f64, hi: f64, lipschitz: f64) -> f64
    ensures { result ≡ bound_of best lo hi lipschitz }
{
    best + lipschitz * ((hi - lo) * PHI_60)
}

// The bracket with its ends' values, once the search has gone on to g.
#[tactic(auto, unfolding(crate::specs::Upper::held_of))]
pub fn held(s: Bracket, g: Golden) -> Bracket
    ensures { result ≡ held_of s g }
{
    let old = s.g;
    if old.f1 < old.f2 {
        return Bracket {
            g,
            fa: old.f1,
            fb: s.fb,
        };
    }
    Bracket {
        g,
        fa: s.fa,
        fb: old.f2,
    }
}

// An upper bound of a concave objective's maximum, from the last bracket of its search.
#[tactic(auto, unfolding(crate::specs::Upper::upper_of))]
pub fn upper_bound(s: Bracket) -> f64
    ensures { result ≡ upper_of s }
{
    let g = s.g;
    upper_from(s, best(s.fa, s.fb, g.f1, g.f2))
}

// The same, beside the best value.
#[tactic(auto, unfolding(crate::specs::Upper::upper_from))]
fn upper_from(s: Bracket, best: f64) -> f64
    ensures { result ≡ upper_from s best }
{
    let g = s.g;
    if both_finite(g.f1, g.f2) {
        if g.x1 < g.x2 {
            return secants(s, best);
        }
        return best;
    }
    if all_low(g.f1, g.f2, best) {
        return best;
    }
    1.0 / 0.0
}

// Whether x is neither infinite nor a NaN.
#[tactic(auto, unfolding(crate::specs::Upper::finite_of))]
fn finite(x: f64) -> bool
    ensures { result ≡ finite_of x }
{
    MINUS_ONE / 0.0 < x && x < 1.0 / 0.0
}

// Whether both are finite.
#[tactic(auto, unfolding(crate::specs::Upper::finite_of))]
fn both_finite(v1: f64, v2: f64) -> bool
    ensures { result ≡ (finite_of v1 && finite_of v2) }
{
    finite(v1) && finite(v2)
}

// Whether all three are minus infinity.
#[tactic(auto, unfolding(crate::specs::Upper::all_low))]
fn all_low(v1: f64, v2: f64, best: f64) -> bool
    ensures { result ≡ all_low v1 v2 best }
{
    let low = MINUS_ONE / 0.0;
    v1 == low && (v2 == low && best == low)
}

// The largest of the best value and the bounds of the three stretches.
#[tactic(auto, unfolding(crate::specs::Upper::secants_of))]
fn secants(s: Bracket, best: f64) -> f64
    ensures { result ≡ secants_of s best }
{
    let g = s.g;
    let middle = numbers::min(from_a(s.fa, g), from_b(s.fb, g));
    numbers::max(outer(best, g), middle)
}

// The largest of the best value, the bound between a and x1, and the bound between x2 and b.
#[tactic(auto, unfolding(crate::specs::Upper::outer_of))]
fn outer(best: f64, g: Golden) -> f64
    ensures { result ≡ outer_of best g }
{
    let f1 = g.f1;
    let f2 = g.f2;
    let low = g.x1 - g.a;
    let high = g.b - g.x2;
    let s = (f2 - f1) / (g.x2 - g.x1);
    let left = f1 + numbers::max(-s, 0.0) * low;
    let right = f2 + numbers::max(s, 0.0) * high;
    numbers::max(numbers::max(best, left), right)
}

// The bound between x1 and x2 that the value at a gives.
#[tactic(auto, unfolding(crate::specs::Upper::from_a))]
fn from_a(fa: f64, g: Golden) -> f64
    ensures { result ≡ from_a fa g }
{
    let f1 = g.f1;
    let s = (f1 - fa) / (g.x1 - g.a);
    let width = g.x2 - g.x1;
    if finite(fa) {
        return f1 + numbers::max(s, 0.0) * width;
    }
    1.0 / 0.0
}

// The bound between x1 and x2 that the value at b gives.
#[tactic(auto, unfolding(crate::specs::Upper::from_b))]
fn from_b(fb: f64, g: Golden) -> f64
    ensures { result ≡ from_b fb g }
{
    let f2 = g.f2;
    let s = (fb - f2) / (g.b - g.x2);
    let width = g.x2 - g.x1;
    if finite(fb) {
        return f2 + numbers::max(-s, 0.0) * width;
    }
    1.0 / 0.0
}

// phi. The contract says that PHI is what document 01 has computed.
pub fn phi() -> f64
    ensures { result ≡ phi_of }
{
    PHI
}

// phi to the 60th. The contract says the same of PHI_60.
pub fn phi_60() -> f64
    ensures { result ≡ phi60_of }
{
    PHI_60
}
