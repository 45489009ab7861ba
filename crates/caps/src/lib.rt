// What a cutter's tip over an edge is at most, so that an edge that cannot exceed the best so far is not searched. What both round cutters share.
#![tactic(auto)]

ghost use Rattle.std.specs.Prelude.{true, ◌≡◌};
ghost use Rattle.caps.specs.Inside.{root_most, high_on, side_on, least_on, side_tame, in_order, tame_on, tame_rise, Inner, InnerOf};

use cutters::Edge;
use golden::Golden;

// 2^12, 2^24 and 2^44, and the root of each
const SQUARE_6: f64 = 4096.0;

const SQUARE_12: f64 = 16777216.0;

const SQUARE_22: f64 = 17592186044416.0;

const ROOT_6: f64 = 64.0;

const ROOT_12: f64 = 4096.0;

const ROOT_22: f64 = 4194304.0;

// A number that the root of q is at most, for a q up to 2^44: one of four.
pub fn root_most(q: f64) -> f64
    ensures { result ≡ root_most q }
{
    if q <= 1.0 {
        return 1.0;
    }
    if q <= SQUARE_6 {
        return ROOT_6;
    }
    if q <= SQUARE_12 { ROOT_12 } else { ROOT_22 }
}

// The higher of an edge's heights at lo and hi.
pub fn high_on(e: Edge, lo: f64, hi: f64) -> f64
    ensures { result ≡ high_on e lo hi }
{
    let p = e.az + lo * (e.bz - e.az);
    let q = e.az + hi * (e.bz - e.az);
    numbers::max(p, q)
}

// The least distance from the axis (x, y) of the box of an edge from lo to hi.
pub fn least_on(e: Edge, x: f64, y: f64, lo: f64, hi: f64) -> f64
    ensures { result ≡ least_on e x y lo hi }
{
    let ay = e.ay;
    let by = e.by;
    let u = side(e.ax, e.bx, x, lo, hi);
    let v = side(ay, by, y, lo, hi);
    roots::hypot(u, v)
}

// How near to x the coordinates between a and b come from lo to hi, with its sign.
fn side(a: f64, b: f64, x: f64, lo: f64, hi: f64) -> f64
    ensures { result ≡ side_on a b x lo hi }
{
    let p = a + lo * (b - a) - x;
    let q = a + hi * (b - a) - x;
    let low = numbers::min(p, q);
    bound::nearer(low, numbers::max(p, q))
}

// Whether lo..hi lies within 0..1, and the edge's places at lo and hi are of ordinary size, seen from the axis.
pub fn tame_on(e: Edge, x: f64, y: f64, lo: f64, hi: f64) -> bool
    ensures { result ≡ tame_on e x y lo hi }
{
    let ay = e.ay;
    let by = e.by;
    let az = e.az;
    let bz = e.bz;
    in_order(lo, hi)
        && (side_tame(e.ax, e.bx, x, lo, hi)
            && (side_tame(ay, by, y, lo, hi) && side_tame(az, bz, 0.0, lo, hi)))
}

// Whether 0 <= lo <= hi <= 1.
pub fn in_order(lo: f64, hi: f64) -> bool
    ensures { result ≡ in_order lo hi }
{
    0.0 <= lo && (lo <= hi && hi <= 1.0)
}

// Whether one coordinate is of ordinary size at lo and hi, seen from x.
fn side_tame(a: f64, b: f64, x: f64, lo: f64, hi: f64) -> bool
    ensures { result ≡ side_tame a b x lo hi }
{
    let p = a + lo * (b - a) - x;
    let q = a + hi * (b - a) - x;
    plane::is_coordinate(p) && plane::is_coordinate(q)
}

// Whether an edge's heights, its rise and its length are of ordinary size.
pub fn tame_rise(e: Edge) -> bool
    ensures { result ≡ tame_rise e }
{
    let ex = e.bx - e.ax;
    let ey = e.by - e.ay;
    let ez = e.bz - e.az;
    let p = e.az + 0.0 * ez;
    let q = e.az + 1.0 * ez;
    plane::is_coordinate(p)
        && (plane::is_coordinate(q) && (plane::is_coordinate(ez) && ex * ex + ey * ey <= SQUARE_22))
}

// Whether two points lie in a bracket.
pub fn bracketed(a: f64, b: f64, x1: f64, x2: f64) -> bool
    ensures { result ≡ true → Inner a b x1 x2 }
{
    a <= x1 && (x1 <= b && (a <= x2 && x2 <= b))
}

// Whether a search that stands at g before step n is looked at, to be given up there: before every fourth of its first 24 steps.
pub fn looks(g: Golden, n: usize) -> bool
    ensures { result ≡ true → InnerOf g }
{
    n % 4 == 3 && (n < 24 && bracketed(g.a, g.b, g.x1, g.x2))
}
