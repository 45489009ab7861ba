// A search along an edge, as far as it can be followed without distances: which way its steps go is seen from fences of the tip's height, for which squares do.
ghost use Rattle.std.specs.Prelude.{true, ◌≡◌, ◌≤◌};
ghost use Rattle.numbers.specs.Reals.{min_of};
ghost use Rattle.roots.specs.Hypot.{hypot_of};
ghost use Rattle.golden.specs.Search.{rises, golden_step, golden_at};
ghost use Rattle.section.specs.Section.{section_at};
ghost use Rattle.section.specs.Inside.{Firm, FlatTo, over_of, Around, Held, valued_at, loose_of, Loosely, goes_of};

use crate::Section;
use cutters::Edge;
use golden::Golden;

// 2^-47, more than what a distance and its square lose by rounding
const SLACK: f64 = 7.105427357601002e-15;

// How the distance from the axis goes on from a place of an edge: by `slope` times the way and `curve` times its square, within `spread` times its third power.
// A guess, of which nothing is asked.
#[derive(Clone, Copy)]
pub struct Course {
    pub at: f64,
    pub distance: f64,
    pub slope: f64,
    pub curve: f64,
    pub spread: f64,
}

// Two numbers between which a height lies, or two NaNs.
#[derive(Clone, Copy)]
pub struct Fence {
    pub low: f64,
    pub high: f64,
}

// A bracket whose values are not worked out, with the fences of both.
#[derive(Clone, Copy)]
pub struct Loose {
    pub g: Golden,
    pub one: Fence,
    pub two: Fence,
}

// A search after n steps.
#[derive(Clone, Copy)]
pub struct Stage {
    pub g: Golden,
    pub n: usize,
}

// The search from where it stands on, as far as the fences tell which way each step goes.
pub fn slid(
    s: Section,
    low: f64,
    x: f64,
    y: f64,
    e: Edge,
    flat: f64,
    lo: f64,
    hi: f64,
    from: Stage,
) -> Stage
    requires { (Firm s low) × (FlatTo s flat) × (from.g ≡ golden_at rises (section_at s x y e) lo hi from.n) × (from.n ≤ 60) }
    ensures { (result.g ≡ golden_at rises (section_at s x y e) lo hi result.n) × (result.n ≤ 60) }
{
    let k = course_from(x, y, e, aim(from.g, lo, hi));
    let mut w = first(from.g);
    for n in from.n..60usize {
        let left = seems(w);
        if !goes(left, w) {
            return Stage {
                g: valued(s, x, y, e, flat, w),
                n,
            };
        }
        w = next(s, low, x, y, e, k, left, w);
    }
    Stage {
        g: valued(s, x, y, e, flat, w),
        n: 60,
    }
}

// The search after a few steps more, and from there as far as the fences tell; from its fortieth step on they tell little more.
pub fn more(
    s: Section,
    low: f64,
    x: f64,
    y: f64,
    e: Edge,
    flat: f64,
    lo: f64,
    hi: f64,
    from: Stage,
) -> Stage
    requires { (Firm s low) × (FlatTo s flat) × (from.g ≡ golden_at rises (section_at s x y e) lo hi from.n) × (from.n ≤ 60) }
    ensures { (result.g ≡ golden_at rises (section_at s x y e) lo hi result.n) × (result.n ≤ 60) }
{
    if from.n >= 40 {
        return from;
    }
    let end = from.n + 5;
    let mut g = from.g;
    for n in from.n..end {
        g = crate::step(s, x, y, e, flat, g);
    }
    slid(s, low, x, y, e, flat, lo, hi, Stage { g, n: end })
}

// Where the search seems to end: at an end of lo..hi, or near the better inner point.
fn aim(g: Golden, lo: f64, hi: f64) -> f64 {
    if g.b == hi {
        return hi;
    }
    if g.a == lo {
        return lo;
    }
    if g.f1 < g.f2 { g.x2 } else { g.x1 }
}

// How the distance goes on from the edge's point at t.
fn course_from(x: f64, y: f64, e: Edge, t: f64) -> Course {
    let ex = e.bx - e.ax;
    let ey = e.by - e.ay;
    let dx = e.ax + t * ex - x;
    let dy = e.ay + t * ey - y;
    let d = roots::hypot(dx, dy);
    let over = 0.5 / d;
    let slope = 2.0 * over * (dx * ex + dy * ey);
    let length = ex * ex + ey * ey;
    Course {
        at: t,
        distance: d,
        slope,
        curve: over * (length - slope * slope),
        spread: 2.0 * over * over * length * (numbers::abs(ex) + numbers::abs(ey)),
    }
}

// Whether a step seems to drop the left part.
fn seems(w: Loose) -> bool {
    let one = w.one;
    let two = w.two;
    one.high < two.low
}

// A bracket with its values for fences.
fn first(g: Golden) -> Loose
    ensures { result ≡ loose_of g }
{
    let one = Fence {
        low: g.f1,
        high: g.f1,
    };
    let two = Fence {
        low: g.f2,
        high: g.f2,
    };
    Loose { g, one, two }
}

// Whether the fences tell that a step drops the left part, or the right one.
fn goes(left: bool, w: Loose) -> bool
    ensures { result ≡ goes_of left w }
{
    let one = w.one;
    let two = w.two;
    if left {
        return one.high < two.low;
    }
    two.high <= one.low
}

// The bracket after such a step.
fn next(s: Section, low: f64, x: f64, y: f64, e: Edge, k: Course, left: bool, w: Loose) -> Loose
    requires { (Firm s low) × (goes_of left w ≡ true) }
    ensures { (q : Golden) → Loosely (section_at s x y e) q w → Loosely (section_at s x y e) (golden_step rises (section_at s x y e) q) result }
{
    let one = w.one;
    let two = w.two;
    let p = golden::probe(left, w.g);
    let g = golden::narrowed(left, w.g, p, 0.0);
    let v = bounds_at(s, low, x, y, e, k, p);
    if left {
        return Loose {
            g,
            one: two,
            two: v,
        };
    }
    Loose {
        g,
        one: v,
        two: one,
    }
}

// The bracket with its values.
fn valued(s: Section, x: f64, y: f64, e: Edge, flat: f64, w: Loose) -> Golden
    requires { FlatTo s flat }
    ensures { result ≡ valued_at (section_at s x y e) w.g }
{
    let g = w.g;
    Golden {
        a: g.a,
        b: g.b,
        x1: g.x1,
        x2: g.x2,
        f1: crate::at(s, x, y, e, flat, g.x1),
        f2: crate::at(s, x, y, e, flat, g.x2),
    }
}

// Two numbers between which the tip's height over the edge's point at t lies, if the distance there is as k has it.
fn bounds_at(s: Section, low: f64, x: f64, y: f64, e: Edge, k: Course, t: f64) -> Fence
    requires { Firm s low }
    ensures { Held result (section_at s x y e t) }
{
    let z = e.az + t * (e.bz - e.az);
    let dx = e.ax + t * (e.bx - e.ax) - x;
    let dy = e.ay + t * (e.by - e.ay) - y;
    let way = t - k.at;
    let d = k.distance + way * (k.slope + way * k.curve);
    let slack = k.distance * SLACK + numbers::abs(way) * way * way * k.spread;
    let near = d - slack;
    let far = d + slack;
    if 0.0 <= low {
        if lies(z, dx, dy, near, far) {
            return Fence {
                low: over(s, z, far),
                high: over(s, z, near),
            };
        }
    }
    Fence {
        low: 0.0 / 0.0,
        high: 0.0 / 0.0,
    }
}

// Whether the height z is of ordinary size and the squares show that the distance of dx and dy lies from near to far.
fn lies(z: f64, dx: f64, dy: f64, near: f64, far: f64) -> bool
    ensures { result ≡ true → Around z near far (hypot_of dx dy) }
{
    let q = dx * dx + dy * dy;
    plane::is_coordinate(z)
        && (plane::is_radius(near)
            && (plane::is_radius(far) && (q >= bound::beyond(near) && q <= bound::within(far))))
}

// The height z less that of the surface at the distance d, or at the rim where that is nearer.
fn over(s: Section, z: f64, d: f64) -> f64
    ensures { result ≡ over_of s z (min_of d s.r1) }
{
    crate::low::over(s, z, numbers::min(d, s.r1))
}
