// Where the walk of a bull-nose cutter may begin above the floor: a guess of what the walk will find, from tips over vertices, facets and places of edges.
// Any number would do, so none of these tips is worked out to the last digit. The laws in proofs/ are on contacts beside such a height.
#![tactic(auto)]

ghost use Rattle.std.specs.Prelude.{◌≡◌};
ghost use Rattle.std.specs.Float.Ieee.{le};
ghost use Rattle.numbers.specs.Reals.{f0};
ghost use Rattle.bull.specs.Inside.{base_of};
ghost use Rattle.ahead.specs.Inside.{sighted_tip, sighted_vertex, sighted_vertices, lean_of, is_across, rest_on, sighted_rest, sighted_facet};
ghost use Rattle.ahead.specs.Inside.{sighted_edge, sighted_edges, is_under, is_large, sighted_more, sighted_of};

use bull::Bull;
use cutters::{Edge, Rest};
use plane::{Bounds, Triangle};

pub mod alone;

// 2^-60: up to this square a slope counts as none
const LEVEL: f64 = 0.000000000000000000867361737988403547205962240695953369140625;

// What stands upright on a triangle: its parts along x, y and z, the last not below 0.
#[derive(Clone, Copy)]
pub struct Lean {
    pub x: f64,
    pub y: f64,
    pub up: f64,
}

// Whether the cutter's height over its tip is nowhere below 0, as it is computed.
pub fn is_level(k: Bull) -> bool
    ensures { result ≡ le f0 (base_of k) }
{
    0.0 <= bull::cap::base_of(k)
}

// The height b, or the highest of a few tips over a triangle with the box x, if higher. What lies at squares from `far` on is left out.
pub fn sighted(k: Bull, far: f64, t: Triangle, x: Bounds, b: f64) -> f64
    ensures { result ≡ sighted_of k far t x b }
{
    let top = x.top;
    let z = vertices(k, far, t, b);
    if top <= z {
        return z;
    }
    if is_large(k, far, x) {
        return more(k, far, t, z);
    }
    z
}

// Whether a triangle is large beside the cutter, and its box under it: of small ones the vertices tell enough.
fn is_large(k: Bull, far: f64, x: Bounds) -> bool
    ensures { result ≡ is_large k far x }
{
    let sides = x.high_x - x.low_x + (x.high_y - x.low_y);
    k.r <= 1.375 * sides && is_under(k, far, x)
}

// Whether the squares of a box do not reach `far`.
fn is_under(k: Bull, far: f64, x: Bounds) -> bool
    ensures { result ≡ is_under k far x }
{
    let south = x.low_y - k.y;
    let north = x.high_y - k.y;
    let u = bound::nearer(x.low_x - k.x, x.high_x - k.x);
    let v = bound::nearer(south, north);
    u * u + v * v < far
}

// The height b, or the highest tip over a vertex, if higher.
fn vertices(k: Bull, far: f64, t: Triangle, b: f64) -> f64
    ensures { result ≡ sighted_vertices k far t b }
{
    let u = vertex(k, far, t.ax, t.ay, t.az, b);
    let v = vertex(k, far, t.bx, t.by, t.bz, u);
    vertex(k, far, t.cx, t.cy, t.cz, v)
}

// The same of one vertex.
fn vertex(k: Bull, far: f64, x: f64, y: f64, z: f64, b: f64) -> f64
    ensures { result ≡ sighted_vertex k far x y z b }
{
    let dx = x - k.x;
    let dy = y - k.y;
    let q = dx * dx + dy * dy;
    if z <= b {
        return b;
    }
    if far <= q {
        return b;
    }
    tip(k, z, q, b)
}

// The same of a place at the height z, q being the square of its distance from the axis.
fn tip(k: Bull, z: f64, q: f64, b: f64) -> f64
    ensures { result ≡ sighted_tip k z q b }
{
    let r = k.r;
    let rc = k.rc;
    let flat = r - rc;
    if z <= b {
        return b;
    }
    if q <= flat * flat {
        return z;
    }
    numbers::max(b, z - bull::bull_profile(roots::root(q), r, rc))
}

// The height b, or the tip over the facet or over the edges, if higher.
fn more(k: Bull, far: f64, t: Triangle, b: f64) -> f64
    ensures { result ≡ sighted_more k far t b }
{
    edges(k, far, t, facet(k, t, lean_of(t), b))
}

// The height b, or the tip over the facet, if higher.
fn facet(k: Bull, t: Triangle, l: Lean, b: f64) -> f64
    ensures { result ≡ sighted_facet k t l b }
{
    if is_across(k, t, l) {
        return rested(k, t, l, rest_on(k, l), b);
    }
    b
}

// What stands upright on a triangle.
fn lean_of(t: Triangle) -> Lean
    ensures { result ≡ lean_of t }
{
    let bx = t.bx - t.ax;
    let by = t.by - t.ay;
    let bz = t.bz - t.az;
    let cx = t.cx - t.ax;
    let cy = t.cy - t.ay;
    let cz = t.cz - t.az;
    let x = bz * cy - cz * by;
    let y = cz * bx - bz * cx;
    let up = bx * cy - cx * by;
    if up < 0.0 {
        return Lean {
            x: -x,
            y: -y,
            up: -up,
        };
    }
    Lean { x, y, up }
}

// Whether the line up the slope through the axis crosses the triangle in plan: the cutter rests on the facet only there.
fn is_across(k: Bull, t: Triangle, l: Lean) -> bool
    ensures { result ≡ is_across k t l }
{
    let a = l.x * (t.ay - k.y) - l.y * (t.ax - k.x);
    let b = l.x * (t.by - k.y) - l.y * (t.bx - k.x);
    let c = l.x * (t.cy - k.y) - l.y * (t.cx - k.x);
    if a > 0.0 {
        return numbers::min(b, c) <= 0.0;
    }
    numbers::max(b, c) >= 0.0
}

// Where the cutter rests on a plane, seen from its axis.
fn rest_on(k: Bull, l: Lean) -> Rest
    ensures { result ≡ rest_on k l }
{
    let r = k.r;
    let rc = k.rc;
    let x = l.x;
    let y = l.y;
    let up = l.up;
    let q = x * x + y * y;
    if q <= LEVEL * (up * up) {
        return Rest {
            x: 0.0,
            y: 0.0,
            drop: 0.0,
        };
    }
    let side = roots::root(q);
    let part = rc / roots::root(q + up * up);
    let f = (r - rc + part * side) / side;
    Rest {
        x: f * x,
        y: f * y,
        drop: rc - part * up,
    }
}

// The height b, or the tip where the cutter rests on the facet at p, if that place is on the triangle and the tip higher.
fn rested(k: Bull, t: Triangle, l: Lean, p: Rest, b: f64) -> f64
    ensures { result ≡ sighted_rest k t l p b }
{
    let bx = t.bx - t.ax;
    let by = t.by - t.ay;
    let cx = t.cx - t.ax;
    let cy = t.cy - t.ay;
    let det = bx * cy - cx * by;
    let dx = p.x - (t.ax - k.x);
    let dy = p.y - (t.ay - k.y);
    let v = dx * cy - cx * dy;
    let w = bx * dy - dx * by;
    let u = det - v - w;
    let z = t.az + (l.x * dx + l.y * dy) / l.up - p.drop;
    if numbers::min(u * det, numbers::min(v * det, w * det)) > 0.0 {
        return numbers::max(b, z);
    }
    b
}

// The height b, or the highest tip over a place of an edge, if higher.
fn edges(k: Bull, far: f64, t: Triangle, b: f64) -> f64
    ensures { result ≡ sighted_edges k far t b }
{
    let u = edge(k, far, cutters::edge_ab(t), b);
    let v = edge(k, far, cutters::edge_bc(t), u);
    edge(k, far, cutters::edge_ca(t), v)
}

// The same of one edge, over its place nearest to the axis; none where that is an end.
fn edge(k: Bull, far: f64, e: Edge, b: f64) -> f64
    ensures { result ≡ sighted_edge k far e b }
{
    let ex = e.bx - e.ax;
    let ey = e.by - e.ay;
    let wx = k.x - e.ax;
    let wy = k.y - e.ay;
    let square = ex * ex + ey * ey;
    let along = ex * wx + ey * wy;
    let off = ex * wy - ey * wx;
    let az = e.az;
    let bz = e.bz;
    if numbers::max(az, bz) <= b {
        return b;
    }
    if along <= 0.0 {
        return b;
    }
    if square <= along {
        return b;
    }
    if far * square <= off * off {
        return b;
    }
    tip(k, az + along / square * (bz - az), off * off / square, b)
}
