// A chord, the straight move of a tool's tip, and where along it a triangle is within a cutter's reach.
#![tactic(auto)]

ghost use Rattle.std.specs.Prelude.{◌≡◌};
ghost use Rattle.std.specs.Float.Ieee.{lt, le};
ghost use Rattle.numbers.specs.Reals.{f0, f1};
ghost use Rattle.roots.specs.Root.{root_of};
ghost use Rattle.golden.specs.Search.{falls, golden_start, golden_step};
ghost use Rattle.reach.specs.Reach.{apart_at, near_of, halved_of, span_at, rim_of, stretch_from, stretch_of, above_of, gap_of};
ghost use Rattle.cutters.specs.Touch.{from_to};
ghost use Rattle.reach.specs.Inside.{edge_square, square_xy, square_at, rooted, Flat, Far, Settles};

use cutters::Stretch;
use golden::Golden;
use plane::{Contact, Triangle};

const MINUS_ONE: f64 = -1.0;

// 2^-300, below which a product is not trusted
const LEAST: f64 = 4.909093465297727e-91;

// 1 + 2^-49: of two numbers that far apart the roots, rounded, still differ
const BARELY_MORE: f64 = 1.0000000000000018;

// A move from the tip a to the tip b; contacts count lifted by `lift`.
#[derive(Clone, Copy)]
pub struct Chord {
    pub ax: f64,
    pub ay: f64,
    pub az: f64,
    pub bx: f64,
    pub by: f64,
    pub bz: f64,
    pub lift: f64,
}

// A place of a chord within reach, and one that is not.
#[derive(Clone, Copy)]
pub struct Span {
    pub inside: f64,
    pub outside: f64,
}

// A reach r, and what squares tell of it: up to `flat` they are those of distances within r, from `far` on of those that are not.
#[derive(Clone, Copy)]
pub struct Limit {
    pub r: f64,
    pub flat: f64,
    pub far: f64,
}

// The stretch of a chord where a triangle is within r; the search for the closest approach takes `steps` steps.
pub fn stretch_of(t: Triangle, m: Chord, r: f64, steps: usize) -> Option<Stretch>
    ensures { result ≡ stretch_of t m r steps }
{
    stretch_from(t, m, r, nearest(t, m, steps))
}

// The same around the closest approach.
fn stretch_from(t: Triangle, m: Chord, r: f64, near: f64) -> Option<Stretch>
    ensures { result ≡ stretch_from t m r near }
{
    if apart_at(t, m, near) > r {
        return None;
    }
    between(t, m, limit_of(r), near)
}

// How far the contact c, lifted, stands above the tip at s.
#[tactic(auto, unfolding(crate::specs::Reach::gap_of))]
pub fn gap_of(m: Chord, s: f64, c: Option<Contact>) -> f64
    ensures { result ≡ gap_of m s c }
{
    match c {
        None => MINUS_ONE / 0.0,
        Some(met) => above(m, s, met.height),
    }
}

// How far the height z, lifted, stands above the tip at s.
#[tactic(auto, unfolding(crate::specs::Reach::above_of))]
fn above(m: Chord, s: f64, z: f64) -> f64
    ensures { result ≡ above_of m s z }
{
    z + m.lift - (m.az + s * (m.bz - m.az))
}

// The distance in plan of a triangle from the chord's point at s.
fn apart_at(t: Triangle, m: Chord, s: f64) -> f64
    ensures { result ≡ apart_at t m s }
{
    roots::root(square_at(t, m, s))
}

// Where a chord comes closest to a triangle. The search compares distances alone, so it keeps their squares.
fn nearest(t: Triangle, m: Chord, steps: usize) -> f64
    ensures { result ≡ near_of t m steps }
{
    let mut g = start(t, m, 0.0, 1.0);
    for n in 0..steps {
        g = step(t, m, g);
    }
    (g.a + g.b) / 2.0
}

// The search's first bracket, with squares.
fn start(t: Triangle, m: Chord, lo: f64, hi: f64) -> Golden
    ensures { rooted result ≡ golden_start (apart_at t m) lo hi }
{
    let u = golden::lower_point(lo, hi);
    let v = golden::upper_point(lo, hi);
    golden::start(lo, hi, square_at(t, m, u), square_at(t, m, v))
}

// A step of the search, with squares.
fn step(t: Triangle, m: Chord, g: Golden) -> Golden
    ensures { rooted result ≡ golden_step falls (apart_at t m) (rooted g) }
{
    let left = is_farther(g.f1, g.f2);
    let p = golden::probe(left, g);
    golden::narrowed(left, g, p, square_at(t, m, p))
}

// Whether the root of p is above that of q. Where p is at most q it is not, where p is a part in 2^49 above q it is, and only between the two are roots taken.
fn is_farther(p: f64, q: f64) -> bool
    ensures { result ≡ lt (root_of q) (root_of p) }
{
    if p <= q {
        if p >= 0.0 {
            return false;
        }
        return by_roots(p, q);
    }
    if q >= LEAST {
        if q * BARELY_MORE <= p {
            return true;
        }
    }
    by_roots(p, q)
}

// The same by the roots.
#[tactic(auto, unfolding(roots::specs::Root::root_of))]
fn by_roots(p: f64, q: f64) -> bool
    ensures { result ≡ lt (root_of q) (root_of p) }
{
    let d = roots::root(p);
    d > roots::root(q)
}

// The same where the closest approach is within reach.
fn between(t: Triangle, m: Chord, k: Limit, near: f64) -> Option<Stretch>
    requires { Settles k }
    ensures { result ≡ from_to (rim_of t m k.r near f0) (rim_of t m k.r near f1) }
{
    let low = rim(t, m, k, near, 0.0);
    let high = rim(t, m, k, near, 1.0);
    Some(Stretch {
        from: low,
        to: high,
    })
}

// What squares tell of r. That the root of r * r is at most r, and that of a little more above it, is seen here, once for all squares.
fn limit_of(r: f64) -> Limit
    ensures { (result.r ≡ r) × Settles result }
{
    let square = r * r;
    let flat = flat_of(r, square);
    let far = far_of(r, square * BARELY_MORE);
    Limit { r, flat, far }
}

// q, if its root is at most r, or a number below every square.
fn flat_of(r: f64, q: f64) -> f64
    ensures { Flat r result }
{
    if roots::root(q) <= r {
        return q;
    }
    MINUS_ONE
}

// v, if its root is above r, or a NaN, which no number reaches.
fn far_of(r: f64, v: f64) -> f64
    ensures { Far r result }
{
    if roots::root(v) <= r {
        return 0.0 / 0.0;
    }
    if v >= 0.0 {
        return v;
    }
    0.0 / 0.0
}

// The end of the stretch within r, from a place inside towards one that may be outside.
fn rim(t: Triangle, m: Chord, k: Limit, inside: f64, outside: f64) -> f64
    requires { Settles k }
    ensures { result ≡ rim_of t m k.r inside outside }
{
    if reaches(t, m, k, outside) {
        return outside;
    }
    let s = bisected(t, m, k, Span { inside, outside });
    s.inside
}

// The two places after 60 steps of halving.
fn bisected(t: Triangle, m: Chord, k: Limit, from: Span) -> Span
    requires { Settles k }
    ensures { result ≡ span_at t m k.r from 60 }
{
    let mut s = from;
    for n in 0..60usize {
        s = halved(t, m, k, s);
    }
    s
}

// A step of halving.
fn halved(t: Triangle, m: Chord, k: Limit, s: Span) -> Span
    requires { Settles k }
    ensures { result ≡ halved_of t m k.r s }
{
    let inside = s.inside;
    let outside = s.outside;
    let middle = (inside + outside) / 2.0;
    if reaches(t, m, k, middle) {
        return Span {
            inside: middle,
            outside,
        };
    }
    Span {
        inside,
        outside: middle,
    }
}

// Whether a triangle is within reach of the chord's point at s.
fn reaches(t: Triangle, m: Chord, k: Limit, s: f64) -> bool
    requires { Settles k }
    ensures { result ≡ le (apart_at t m s) k.r }
{
    is_within(k, square_at(t, m, s))
}

// Whether the root of q is within reach; it is taken only where its square tells nothing.
fn is_within(k: Limit, q: f64) -> bool
    requires { Settles k }
    ensures { result ≡ le (root_of q) k.r }
{
    if q <= k.flat {
        if q >= 0.0 {
            return true;
        }
    }
    if q >= k.far {
        return false;
    }
    roots::root(q) <= k.r
}

// The square of the distance in plan of a triangle from the chord's point at s.
fn square_at(t: Triangle, m: Chord, s: f64) -> f64
    ensures { result ≡ square_at t m s }
{
    square_xy(t, m.ax + s * (m.bx - m.ax), m.ay + s * (m.by - m.ay))
}

// That from (x, y), 0 inside.
fn square_xy(t: Triangle, x: f64, y: f64) -> f64
    ensures { result ≡ square_xy t x y }
{
    match plane::bary(t, x, y) {
        None => edge_square(t, x, y),
        Some(p) => {
            if plane::at_least(p, 0.0) {
                0.0
            } else {
                edge_square(t, x, y)
            }
        }
    }
}

// That from the nearest edge.
fn edge_square(t: Triangle, x: f64, y: f64) -> f64
    ensures { result ≡ edge_square t x y }
{
    let none = f64::from_bits(0x7ff0_0000_0000_0000);
    let ab = numbers::min(none, plane::dist2_to_segment(x, y, t.ax, t.ay, t.bx, t.by));
    let bc = numbers::min(ab, plane::dist2_to_segment(x, y, t.bx, t.by, t.cx, t.cy));
    numbers::min(bc, plane::dist2_to_segment(x, y, t.cx, t.cy, t.ax, t.ay))
}
