// Whether a bull-nose cutter surely passes over a triangle on a part of a chord, told from boxes, without a search.
#![tactic(auto)]

ghost use Rattle.std.specs.Prelude.{◌≡◌, ◌&&◌};
ghost use Rattle.std.specs.Float.Ieee.{le};
ghost use Rattle.numbers.specs.Reals.{◌⊕◌, ◌⊖◌, f0};
ghost use Rattle.plane.specs.Ranges.{is_coordinate};
ghost use Rattle.cutters.specs.Touch.{facing_of};
ghost use Rattle.bull_pass.specs.Inside.{strip_of, axis_fair, tip_kept, tip_fair, cutter_fair, fair_of, side_tame, tame_of, least_of};
ghost use Rattle.bull_pass.specs.Inside.{lowered_of, under_of, point_block, edge_block, corners_pass, edge_fair, piece_under, march_step};
ghost use Rattle.bull_pass.specs.Inside.{edge_passes, edges_pass, range_of, weight_of, plain_products, plain_range, outside_of, ranges_miss};
ghost use Rattle.bull_pass.specs.Inside.{products_miss, misses_of, rests_miss, facet_passes, passes_of};

use bull::Bull;
use cutters::{Edge, Gradient, Rest};
use plane::Triangle;
use reach::Chord;

// The box in plan of a part of a chord, the height that a contact there may have without touching, and the cutter.
#[derive(Clone, Copy)]
pub struct Strip {
    pub low_x: f64,
    pub high_x: f64,
    pub low_y: f64,
    pub high_y: f64,
    pub high: f64,
    pub r: f64,
    pub rc: f64,
}

// A box in plan, and a height that nothing in it exceeds.
#[derive(Clone, Copy)]
pub struct Block {
    pub low_x: f64,
    pub high_x: f64,
    pub low_y: f64,
    pub high_y: f64,
    pub z: f64,
}

// How far along an edge the blocks have come, how long the next one is, and whether the last one reached the edge's end.
#[derive(Clone, Copy)]
pub struct March {
    pub lo: f64,
    pub w: f64,
    pub done: bool,
}

// The numbers from low to high.
#[derive(Clone, Copy)]
pub struct Range {
    pub low: f64,
    pub high: f64,
}

// The products at the two ends of a weight's two parts.
#[derive(Clone, Copy)]
pub struct Products {
    pub a: f64,
    pub b: f64,
    pub c: f64,
    pub d: f64,
}

// Whether the cutter passes over the triangle from lo to hi on the chord. Where it does not say so, it may pass all the same.
pub fn passes(t: Triangle, m: Chord, r: f64, rc: f64, lo: f64, hi: f64) -> bool
    ensures { result ≡ passes_of t m r rc lo hi }
{
    fair(m, r, rc, lo, hi) && over_all(strip_of(m, r, rc, lo, hi), t)
}

// The corners, the facet, the edges.
fn over_all(k: Strip, t: Triangle) -> bool
    ensures { result ≡ (corners_pass k t && (facet_passes k t (facing_of t) && edges_pass k t)) }
{
    corners_pass(k, t) && (facet_passes(k, t, cutters::facing_of(t)) && edges_pass(k, t))
}

// The box of the chord from lo to hi.
fn strip_of(m: Chord, r: f64, rc: f64, lo: f64, hi: f64) -> Strip
    ensures { result ≡ strip_of m r rc lo hi }
{
    let xa = m.ax + lo * (m.bx - m.ax);
    let xb = m.ax + hi * (m.bx - m.ax);
    let ya = m.ay + lo * (m.by - m.ay);
    let yb = m.ay + hi * (m.by - m.ay);
    let za = m.az + lo * (m.bz - m.az);
    let zb = m.az + hi * (m.bz - m.az);
    let lift = m.lift;
    Strip {
        low_x: numbers::min(xa, xb),
        high_x: numbers::max(xa, xb),
        low_y: numbers::min(ya, yb),
        high_y: numbers::max(ya, yb),
        high: numbers::min(za, zb) - lift,
        r,
        rc,
    }
}

// Whether the numbers are of ordinary size.
fn fair(m: Chord, r: f64, rc: f64, lo: f64, hi: f64) -> bool
    ensures { result ≡ fair_of m r rc lo hi }
{
    let ax = m.ax;
    let ay = m.ay;
    let bx = m.bx;
    let by = m.by;
    cutter_fair(r, rc)
        && (axis_fair(ax, bx, lo, hi) && (axis_fair(ay, by, lo, hi) && height_fair(m, lo, hi)))
}

// The same of the chord's heights.
fn height_fair(m: Chord, lo: f64, hi: f64) -> bool
    ensures { result ≡ (axis_fair m.az m.bz lo hi && tip_fair m lo hi) }
{
    axis_fair(m.az, m.bz, lo, hi) && tip_fair(m, lo, hi)
}

// Radii, and a corner whose square's root is not above it.
fn cutter_fair(r: f64, rc: f64) -> bool
    ensures { result ≡ cutter_fair r rc }
{
    plane::is_radius(r) && (plane::is_radius(rc) && roots::root(rc * rc) <= rc)
}

// Whether the points at lo and at hi of the way from a to b are coordinates.
pub fn axis_fair(a: f64, b: f64, lo: f64, hi: f64) -> bool
    ensures { result ≡ axis_fair a b lo hi }
{
    plane::is_coordinate(a + lo * (b - a)) && plane::is_coordinate(a + hi * (b - a))
}

// Whether the lower tip less the lift, lifted, is not above the lower tip.
fn tip_fair(m: Chord, lo: f64, hi: f64) -> bool
    ensures { result ≡ tip_fair m lo hi }
{
    let lift = m.lift;
    let za = m.az + lo * (m.bz - m.az);
    let zb = m.az + hi * (m.bz - m.az);
    tip_kept(numbers::min(za, zb), lift)
}

fn tip_kept(low: f64, lift: f64) -> bool
    ensures { result ≡ tip_kept low lift }
{
    plane::is_coordinate(lift) && (plane::is_coordinate(low - lift) && tip_back(low, lift))
}

fn tip_back(low: f64, lift: f64) -> bool
    ensures { result ≡ (is_coordinate (low ⊖ lift ⊕ lift) && le (low ⊖ lift ⊕ lift ⊖ low) f0) }
{
    let back = low - lift + lift;
    plane::is_coordinate(back) && back - low <= 0.0
}

// Whether a side of a block lies a coordinate from the strip's.
pub fn side_tame(low: f64, high: f64, a: f64, b: f64) -> bool
    ensures { result ≡ side_tame low high a b }
{
    plane::is_coordinate(low - b) && plane::is_coordinate(high - a)
}

fn tame(k: Strip, b: Block) -> bool
    ensures { result ≡ tame_of k b }
{
    let z = b.z;
    let low = b.low_y;
    let high = b.high_y;
    let first = k.low_y;
    let last = k.high_y;
    side_tame(b.low_x, b.high_x, k.low_x, k.high_x)
        && (side_tame(low, high, first, last) && plane::is_coordinate(z))
}

// The least distance of a block from the strip.
fn least(k: Strip, b: Block) -> f64
    ensures { result ≡ least_of k b }
{
    let low = b.low_y - k.high_y;
    let high = b.high_y - k.low_y;
    let u = bound::nearer(b.low_x - k.high_x, b.high_x - k.low_x);
    let v = bound::nearer(low, high);
    roots::hypot(u, v)
}

// Whether nothing in the block gives a tip above the strip's height.
fn under(k: Strip, b: Block) -> bool
    ensures { result ≡ under_of k b }
{
    let z = b.z;
    let high = k.high;
    if !tame(k, b) {
        return false;
    }
    if z - 0.0 <= high {
        return true;
    }
    lowered(k, b)
}

// The same less the profile at the least distance.
fn lowered(k: Strip, b: Block) -> bool
    ensures { result ≡ lowered_of k b }
{
    let z = b.z;
    let high = k.high;
    let r = k.r;
    let rc = k.rc;
    let d = numbers::min(least(k, b), r);
    z - bull::bull_profile(d, r, rc) <= high
}

// A corner.
fn point_block(x: f64, y: f64, z: f64) -> Block
    ensures { result ≡ point_block x y z }
{
    Block {
        low_x: x,
        high_x: x,
        low_y: y,
        high_y: y,
        z,
    }
}

// An edge from lo to hi.
fn edge_block(e: Edge, lo: f64, hi: f64) -> Block
    ensures { result ≡ edge_block e lo hi }
{
    let xa = e.ax + lo * (e.bx - e.ax);
    let xb = e.ax + hi * (e.bx - e.ax);
    let ya = e.ay + lo * (e.by - e.ay);
    let yb = e.ay + hi * (e.by - e.ay);
    let za = e.az + lo * (e.bz - e.az);
    let zb = e.az + hi * (e.bz - e.az);
    Block {
        low_x: numbers::min(xa, xb),
        high_x: numbers::max(xa, xb),
        low_y: numbers::min(ya, yb),
        high_y: numbers::max(ya, yb),
        z: numbers::max(za, zb),
    }
}

// Whether all three corners are under the strip's height.
fn corners_pass(k: Strip, t: Triangle) -> bool
    ensures { result ≡ corners_pass k t }
{
    under(k, point_block(t.ax, t.ay, t.az))
        && (under(k, point_block(t.bx, t.by, t.bz)) && under(k, point_block(t.cx, t.cy, t.cz)))
}

// Whether nothing of an edge from lo to hi gives a tip above the strip's height.
fn piece_under(k: Strip, e: Edge, lo: f64, hi: f64) -> bool
    ensures { result ≡ piece_under k e lo hi }
{
    edge_fair(e, lo, hi) && under(k, edge_block(e, lo, hi))
}

fn edge_fair(e: Edge, lo: f64, hi: f64) -> bool
    ensures { result ≡ edge_fair e lo hi }
{
    let ay = e.ay;
    let by = e.by;
    let az = e.az;
    let bz = e.bz;
    axis_fair(e.ax, e.bx, lo, hi) && (axis_fair(ay, by, lo, hi) && axis_fair(az, bz, lo, hi))
}

// One block more.
fn march_step(k: Strip, e: Edge, s: March) -> March
    ensures { result ≡ march_step k e s }
{
    let lo = s.lo;
    let w = s.w;
    let hi = numbers::min(lo + w, 1.0);
    if piece_under(k, e, lo, hi) {
        return March {
            lo: hi,
            w: 2.0 * w,
            done: hi >= 1.0,
        };
    }
    March {
        lo,
        w: w / 2.0,
        done: false,
    }
}

// Whether an edge is under the strip's height, in at most 20 blocks.
fn edge_passes(k: Strip, e: Edge) -> bool
    ensures { result ≡ edge_passes k e }
{
    let mut s = March {
        lo: 0.0,
        w: 1.0,
        done: false,
    };
    for n in 0..20usize {
        s = march_step(k, e, s);
        if s.done {
            return true;
        }
    }
    false
}

// Whether all three edges are.
fn edges_pass(k: Strip, t: Triangle) -> bool
    ensures { result ≡ edges_pass k t }
{
    edge_passes(k, cutters::edge_ab(t))
        && (edge_passes(k, cutters::edge_bc(t)) && edge_passes(k, cutters::edge_ca(t)))
}

// The numbers between two.
fn span_of(a: f64, b: f64) -> Range
    ensures { result ≡ range_of a b }
{
    Range {
        low: numbers::min(a, b),
        high: numbers::max(a, b),
    }
}

// The weight (x - y) / det at its two ends, for x from a to b and y from c to d.
fn weight(p: Products, det: f64) -> Range
    ensures { result ≡ weight_of p det }
{
    let a = p.a;
    let b = p.b;
    let c = p.c;
    let d = p.d;
    Range {
        low: (numbers::min(a, b) - numbers::max(c, d)) / det,
        high: (numbers::max(a, b) - numbers::min(c, d)) / det,
    }
}

fn plain_products(p: Products) -> bool
    ensures { result ≡ plain_products p }
{
    let b = p.b;
    let c = p.c;
    let d = p.d;
    plane::is_coordinate(p.a)
        && (plane::is_coordinate(b) && (plane::is_coordinate(c) && plane::is_coordinate(d)))
}

fn plain(r: Range) -> bool
    ensures { result ≡ plain_range r }
{
    let high = r.high;
    plane::is_coordinate(r.low) && plane::is_coordinate(high)
}

const SLACK: f64 = -1e-12;

// Whether one of the three weights is below -1e-12 throughout.
fn outside(v: Range, w: Range) -> bool
    ensures { result ≡ outside_of v w }
{
    if v.high < SLACK {
        return true;
    }
    if w.high < SLACK {
        return true;
    }
    1.0 - v.low - w.low < SLACK
}

fn ranges_miss(v: Range, w: Range) -> bool
    ensures { result ≡ ranges_miss v w }
{
    plain(v) && (plain(w) && outside(span_of(v.low, v.high), span_of(w.low, w.high)))
}

fn products_miss(v: Products, w: Products, det: f64) -> bool
    ensures { result ≡ products_miss v w det }
{
    plain_products(v) && (plain_products(w) && ranges_miss(weight(v, det), weight(w, det)))
}

// Whether no place between p and q is on the triangle.
pub fn misses(t: Triangle, p: Rest, q: Rest) -> bool
    ensures { result ≡ misses_of t p q }
{
    let bx = t.bx - t.ax;
    let by = t.by - t.ay;
    let cx = t.cx - t.ax;
    let cy = t.cy - t.ay;
    let dx = p.x - t.ax;
    let dy = p.y - t.ay;
    let gx = q.x - t.ax;
    let gy = q.y - t.ay;
    let det = bx * cy - cx * by;
    let v = Products {
        a: dx * cy,
        b: gx * cy,
        c: cx * dy,
        d: cx * gy,
    };
    let w = Products {
        a: bx * dy,
        b: bx * gy,
        c: dx * by,
        d: gx * by,
    };
    plane::is_coordinate(det) && products_miss(v, w, det)
}

// Whether the cutter's places of rest miss the facet.
fn facet_passes(k: Strip, t: Triangle, f: Option<Gradient>) -> bool
    ensures { result ≡ facet_passes k t f }
{
    match f {
        None => true,
        Some(g) => rests_miss(k, t, g),
    }
}

fn rests_miss(k: Strip, t: Triangle, g: Gradient) -> bool
    ensures { result ≡ rests_miss k t g }
{
    let r = k.r;
    let rc = k.rc;
    let low = Bull {
        x: k.low_x,
        y: k.low_y,
        r,
        rc,
    };
    let high = Bull {
        x: k.high_x,
        y: k.high_y,
        r,
        rc,
    };
    misses(t, bull::rest(low, g), bull::rest(high, g))
}
