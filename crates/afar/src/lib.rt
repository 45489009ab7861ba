// Whether a chord surely stays out of reach of a triangle, told from boxes, without a search.
#![tactic(auto)]

ghost use Rattle.std.specs.Prelude.{true, ◌&&◌, ◌≡◌, ℕ, None};
ghost use Rattle.std.specs.Float.Ieee.{lt};
ghost use Rattle.roots.specs.Root.{root_of};
ghost use Rattle.reach.specs.Reach.{stretch_of};
ghost use Rattle.bull_pass.specs.Inside.{axis_fair};
ghost use Rattle.afar.specs.Inside.{edges_of, side_of, way_of, square_of, upright_of, off_of, Fair, Clear, Off, Quarters};

use bull_pass::Range;
use cutters::Rest;
use plane::Triangle;
use reach::Chord;

// One coordinate: the points of a triangle's edges lie from low to high, those of a part of a chord from first to last.
#[derive(Clone, Copy)]
pub struct Side {
    pub low: f64,
    pub high: f64,
    pub first: f64,
    pub last: f64,
}

// Whether the chord surely stays more than r away from the triangle, so that a search of any number of steps finds it nowhere within reach. Where it
// does not say so, it may do so all the same. The box of a chord that runs aslant is wide, those of its quarters are less so.
pub fn is_afar(t: Triangle, m: Chord, r: f64) -> bool
    ensures { result ≡ true → (n : ℕ) → stretch_of t m r n ≡ None }
{
    let x = edges_of(t.ax, t.bx, t.cx);
    let y = edges_of(t.ay, t.by, t.cy);
    if keeps_off(t, m, r, x, y, 0.0, 1.0) {
        return true;
    }
    quarters_keep_off(t, m, r, x, y)
}

// Whether each quarter of the chord surely stays away.
fn quarters_keep_off(t: Triangle, m: Chord, r: f64, x: Range, y: Range) -> bool
    ensures { result ≡ true → Quarters t m r x y }
{
    if !keeps_off(t, m, r, x, y, 0.0, 0.25) {
        return false;
    }
    if !keeps_off(t, m, r, x, y, 0.25, 0.5) {
        return false;
    }
    if !keeps_off(t, m, r, x, y, 0.5, 0.75) {
        return false;
    }
    keeps_off(t, m, r, x, y, 0.75, 1.0)
}

// The numbers between which all points of the edges lie, on a coordinate whose corners are a, b and c.
fn edges_of(a: f64, b: f64, c: f64) -> Range
    ensures { result ≡ edges_of a b c }
{
    Range {
        low: apart::lowest_on(a, b, c),
        high: apart::highest_on(a, b, c),
    }
}

// Whether the chord from lo to hi surely stays away: its box lies more than r off the triangle's, and none of its points counts as inside.
fn keeps_off(t: Triangle, m: Chord, r: f64, x: Range, y: Range, lo: f64, hi: f64) -> bool
    ensures { result ≡ true → Off t m r x y lo hi }
{
    let u = side_of(x, m.ax, m.bx, lo, hi);
    let v = side_of(y, m.ay, m.by, lo, hi);
    is_beyond(u, v, r) && clears(t, m, lo, hi, u, v)
}

// One coordinate, on which the chord goes from p to q.
fn side_of(e: Range, p: f64, q: f64, lo: f64, hi: f64) -> Side
    ensures { result ≡ side_of e p q lo hi }
{
    let low = e.low;
    let high = e.high;
    let from = p + lo * (q - p);
    let to = p + hi * (q - p);
    Side {
        low,
        high,
        first: numbers::min(from, to),
        last: numbers::max(from, to),
    }
}

// Whether the boxes surely lie more than r apart. The root is taken only where the square is above that of r.
fn is_beyond(x: Side, y: Side, r: f64) -> bool
    ensures { result ≡ true → lt r (root_of (square_of x y)) ≡ true }
{
    let u = way(x);
    let v = way(y);
    let q = u * u + v * v;
    if q <= r * r {
        return false;
    }
    roots::root(q) > r
}

// The shortest way from the chord's box to the triangle's.
fn way(s: Side) -> f64
    ensures { result ≡ way_of s }
{
    bound::nearer(s.low - s.last, s.high - s.first)
}

// Whether no point of the chord's box counts as inside the triangle, and the numbers are of ordinary size.
fn clears(t: Triangle, m: Chord, lo: f64, hi: f64, x: Side, y: Side) -> bool
    ensures { result ≡ true → Clear t m lo hi x y }
{
    if !is_off(t, x, y) {
        return false;
    }
    if !axes_fair(m, lo, hi) {
        return false;
    }
    fair(t.ax, t.bx, t.cx, m.ax, m.bx, x) && fair(t.ay, t.by, t.cy, m.ay, m.by, y)
}

// Whether no point of the chord's box counts as inside the triangle: it stands upright, or none of them is on it.
fn is_off(t: Triangle, x: Side, y: Side) -> bool
    ensures { result ≡ off_of t x y }
{
    let first = Rest {
        x: x.first,
        y: y.first,
        drop: 0.0,
    };
    let last = Rest {
        x: x.last,
        y: y.last,
        drop: 0.0,
    };
    if is_upright(t) {
        return true;
    }
    bull_pass::misses(t, first, last)
}

// Whether no place has weights in the triangle.
fn is_upright(t: Triangle) -> bool
    ensures { result ≡ upright_of t }
{
    let bx = t.bx - t.ax;
    let by = t.by - t.ay;
    let cx = t.cx - t.ax;
    let cy = t.cy - t.ay;
    numbers::abs(bx * cy - cx * by) < 1e-300
}

// Whether the chord's numbers at lo and hi are of ordinary size.
fn axes_fair(m: Chord, lo: f64, hi: f64) -> bool
    ensures { result ≡ (axis_fair m.ax m.bx lo hi && axis_fair m.ay m.by lo hi) }
{
    bull_pass::axis_fair(m.ax, m.bx, lo, hi) && bull_pass::axis_fair(m.ay, m.by, lo, hi)
}

// Whether the numbers of one coordinate are of ordinary size.
fn fair(a: f64, b: f64, c: f64, p: f64, q: f64, s: Side) -> bool
    ensures { result ≡ true → Fair a b c p q s }
{
    apart::fine(a, b, c, p, q) && bull_pass::side_tame(s.low, s.high, s.first, s.last)
}
