// Whether a triangle blocks a bull-nose cutter on a chord.
#![tactic(auto)]

ghost use Rattle.std.specs.Prelude.{◌≡◌, true, false, ◌&&◌};
ghost use Rattle.std.specs.Float.Ieee.{lt};
ghost use Rattle.numbers.specs.Reals.{f0, max_of};
ghost use Rattle.golden.specs.Search.{rises, golden_start, golden_step, golden_max};
ghost use Rattle.bull_gap.specs.Blocks.{bull_gap, bull_searched, bull_blocks};
ghost use Rattle.caps.specs.Inside.{InnerOf, in_order};
ghost use Rattle.bull_pass.specs.Inside.{passes_of};

use bull::Bull;
use cutters::Stretch;
use golden::Golden;
use plane::Triangle;
use reach::Chord;

// Whether a triangle with this top blocks the cutter of the radius r and the corner radius rc on the chord. One that is surely out of reach needs no search
// for the stretch within it.
pub fn bull_blocks(t: Triangle, top: f64, m: Chord, r: f64, rc: f64) -> bool
    ensures { result ≡ bull_blocks t top m r rc }
{
    let lift = m.lift;
    let low = numbers::min(m.az, m.bz);
    if top + lift <= low {
        return false;
    }
    if afar::is_afar(t, m, r) {
        return false;
    }
    searched(t, m, r, rc, reach::stretch_of(t, m, r, 50))
}

// Whether a contact on the stretch, lifted, stands above the tip.
#[tactic(auto, unfolding(crate::specs::Blocks::bull_searched))]
fn searched(t: Triangle, m: Chord, r: f64, rc: f64, s: Option<Stretch>) -> bool
    ensures { result ≡ bull_searched t m r rc s }
{
    match s {
        None => false,
        Some(part) => stands(t, m, r, rc, part.from, part.to),
    }
}

// Whether the contact, lifted, stands above the tip between two places of the chord. Where the cutter surely passes there, or the contact stands
// above at one of the two, no search is needed.
fn stands(t: Triangle, m: Chord, r: f64, rc: f64, lo: f64, hi: f64) -> bool
    ensures { result ≡ lt f0 (golden_max (bull_gap t m r rc) lo hi 40) }
{
    if passes_between(t, m, r, rc, lo, hi) {
        return false;
    }
    let low = gap(t, m, r, rc, lo);
    if low > 0.0 {
        return true;
    }
    let high = gap(t, m, r, rc, hi);
    if numbers::max(low, high) > 0.0 {
        return true;
    }
    sought(t, m, r, rc, lo, hi, low, high)
}

// Whether the cutter surely passes between two places in order.
fn passes_between(t: Triangle, m: Chord, r: f64, rc: f64, lo: f64, hi: f64) -> bool
    ensures { result ≡ (in_order lo hi && passes_of t m r rc lo hi) }
{
    caps::in_order(lo, hi) && bull_pass::passes(t, m, r, rc, lo, hi)
}

// The same by a search, the gaps at both places being low and high. It breaks off where the cutter surely passes in the bracket that it has come to,
// which it asks before every fourth step.
fn sought(t: Triangle, m: Chord, r: f64, rc: f64, lo: f64, hi: f64, low: f64, high: f64) -> bool
    requires { (low ≡ bull_gap t m r rc lo) × (high ≡ bull_gap t m r rc hi) × (lt f0 (max_of low high) ≡ false) }
    ensures { result ≡ lt f0 (golden_max (bull_gap t m r rc) lo hi 40) }
{
    let mut g = start(t, m, r, rc, lo, hi);
    for n in 0..40usize {
        if settled(t, m, r, rc, g, n) {
            return false;
        }
        g = step(t, m, r, rc, g);
    }
    golden::best(low, high, g.f1, g.f2) > 0.0
}

// Whether the search may break off before step n.
fn settled(t: Triangle, m: Chord, r: f64, rc: f64, g: Golden, n: usize) -> bool
    ensures { result ≡ true → InnerOf g × (in_order g.a g.b ≡ true) × (passes_of t m r rc g.a g.b ≡ true) }
{
    let a = g.a;
    let b = g.b;
    n % 4 == 3 && (caps::bracketed(a, b, g.x1, g.x2) && passes_between(t, m, r, rc, a, b))
}

// The search's first bracket.
fn start(t: Triangle, m: Chord, r: f64, rc: f64, lo: f64, hi: f64) -> Golden
    ensures { result ≡ golden_start (bull_gap t m r rc) lo hi }
{
    let u = golden::lower_point(lo, hi);
    let v = golden::upper_point(lo, hi);
    golden::start(lo, hi, gap(t, m, r, rc, u), gap(t, m, r, rc, v))
}

// A step of the search.
fn step(t: Triangle, m: Chord, r: f64, rc: f64, g: Golden) -> Golden
    ensures { result ≡ golden_step rises (bull_gap t m r rc) g }
{
    let left = golden::drops_low(g);
    let p = golden::probe(left, g);
    golden::narrowed(left, g, p, gap(t, m, r, rc, p))
}

// How far the contact, lifted, stands above the tip at s.
fn gap(t: Triangle, m: Chord, r: f64, rc: f64, s: f64) -> f64
    ensures { result ≡ bull_gap t m r rc s }
{
    let x = m.ax + s * (m.bx - m.ax);
    let y = m.ay + s * (m.by - m.ay);
    reach::gap_of(m, s, ahead::alone::contact(t, Bull { x, y, r, rc }))
}
