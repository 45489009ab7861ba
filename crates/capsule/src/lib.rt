// The height of one triangle under the swept disk: the highest of its candidates, the points where a linear height can peak, that lie in the capsule.
// What was found so far is a number and a float, which stay in registers; a contact is made of them at the end.
#![tactic(auto)]

ghost use Rattle.std.specs.Prelude.{true, cond, ◌⊎◌, ◌≡◌, get_or};
ghost use Rattle.std.specs.Float.Ieee.{lt};
ghost use Rattle.numbers.specs.Reals.{f0};
ghost use Rattle.plane.specs.Contacts.{corner};
ghost use Rattle.roots.specs.Hypot.{hypot_of};
ghost use Rattle.capsule.specs.Region.{normal_of, capsule_of, offer_of, offered_all, Among, contact_of};
ghost use Rattle.capsule.specs.Inside.{on_top, Higher, NotAbove, Away, Ordinary, Single, firsts};
ghost use Rattle.capsule.specs.Candidates.{each, corners, edge_of, edges, ends, on_edge, reached, circled, sided, sides, crossed, rise_of};
ghost use Rattle.capsule.specs.Candidates.{tangents, flank, flanks, places, plane_over, inner, candidates, highest_in, max_in_capsule};

use plane::{Contact, Touch, Triangle};

const MINUS_ONE: f64 = -1.0;

const MINUS_SLACK: f64 = -1e-12;

const PAST_ONE: f64 = 1.0 + 1e-12;

// The capsule of radius r around p-q: its length, its unit normal n, and the largest squared distance that counts as inside.
#[derive(Clone, Copy)]
pub struct Capsule {
    pub px: f64,
    pub py: f64,
    pub qx: f64,
    pub qy: f64,
    pub r: f64,
    pub limit: f64,
    pub len: f64,
    pub nx: f64,
    pub ny: f64,
}

// A place seen from above.
#[derive(Clone, Copy)]
pub struct Place {
    pub x: f64,
    pub y: f64,
}

// A point of a triangle, and what it touches there.
#[derive(Clone, Copy)]
pub struct Point {
    pub x: f64,
    pub y: f64,
    pub z: f64,
    pub touch: Touch,
}

// An edge: its start, the way to its end, and which of the three it is.
#[derive(Clone, Copy)]
pub struct Edge {
    pub x: f64,
    pub y: f64,
    pub z: f64,
    pub dx: f64,
    pub dy: f64,
    pub dz: f64,
    pub which: u32,
}

// The slope g of a triangle, and the way of length r that rises most.
#[derive(Clone, Copy)]
pub struct Rise {
    pub g: f64,
    pub x: f64,
    pub y: f64,
}

// What was found so far: nothing (0), or a best height z with its touch.
#[derive(Clone, Copy)]
pub struct Best {
    pub found: u64,
    pub z: f64,
    pub touch: Touch,
}

// The highest point of a triangle in the capsule of radius r around p-q.
pub fn max_in_capsule(
    t: Triangle,
    px: f64,
    py: f64,
    qx: f64,
    qy: f64,
    r: f64,
    eps: f64,
) -> Option<Contact>
    ensures { result ≡ max_in_capsule t px py qx qy r eps }
{
    highest_in(capsule_of(px, py, qx, qy, r, eps), t)
}

// The capsule of radius r around p-q.
pub fn capsule_of(px: f64, py: f64, qx: f64, qy: f64, r: f64, eps: f64) -> Capsule
    ensures { result ≡ capsule_of px py qx qy r eps }
{
    let dx = qx - px;
    let dy = qy - py;
    let len = length_of(dx, dy);
    let n = normal_of(dx, dy, len);
    Capsule {
        px,
        py,
        qx,
        qy,
        r,
        limit: (r + eps) * (r + eps),
        len,
        nx: n.x,
        ny: n.y,
    }
}

// The length of a way: a way of no length takes no root.
fn length_of(dx: f64, dy: f64) -> f64
    ensures { result ≡ hypot_of dx dy }
{
    if dx != 0.0 {
        return roots::hypot(dx, dy);
    }
    if dy != 0.0 {
        return roots::hypot(dx, dy);
    }
    0.0
}

// The unit normal of a segment d of a length.
fn normal_of(dx: f64, dy: f64, len: f64) -> Place
    ensures { result ≡ normal_of dx dy len }
{
    if len > 0.0 {
        Place {
            x: -dy / len,
            y: dx / len,
        }
    } else {
        Place { x: 0.0, y: 0.0 }
    }
}

// The highest point of a triangle in a capsule.
pub fn highest_in(k: Capsule, t: Triangle) -> Option<Contact>
    ensures { result ≡ highest_in k t }
{
    contact_of(found_in(k, t))
}

// The same on top of a best so far of the height z: what is not higher is left out as soon as that is known.
pub fn highest_above(k: Capsule, t: Triangle, z: f64) -> Option<Contact>
    ensures { result ≡ on_top z (highest_in k t) }
{
    let touch = Touch { kind: 0, which: 0 };
    contact_of(found_from(k, t, Best { found: 1, z, touch }))
}

// The highest point before a contact is made of it: none, or the height of one of the candidates.
fn found_in(k: Capsule, t: Triangle) -> Best
    ensures { (contact_of result ≡ highest_in k t) × Among k (candidates k t) (contact_of result) }
{
    let none = Best {
        found: 0,
        z: 0.0,
        touch: Touch {
            kind: plane::FACE,
            which: 0,
        },
    };
    found_from(k, t, none)
}

// What was found, and the candidates of a triangle.
fn found_from(k: Capsule, t: Triangle, best: Best) -> Best
    ensures { contact_of result ≡ offered_all k (contact_of best) (candidates k t) }
{
    if away(k, t) {
        return offer_inner(k, best, t);
    }
    let corners = offer_corners(k, best, t);
    let crossings = offer_edges(k, corners, t);
    offer_inner(k, crossings, t)
}

// Whether no corner and no point of an edge lies in the capsule, as all of them lie on one side of its segment, too far off. A false says nothing.
fn away(k: Capsule, t: Triangle) -> bool
    ensures { result ≡ true → Away k t }
{
    let reach = k.r * 1.000001 + 1e-6;
    if apart::apart(t.ax, t.bx, t.cx, k.px, k.qx, reach, k.limit) {
        return true;
    }
    apart::apart(t.ay, t.by, t.cy, k.py, k.qy, reach, k.limit)
}

// The contact that was found.
fn contact_of(b: Best) -> Option<Contact>
    ensures { result ≡ contact_of b }
{
    let touch = b.touch;
    if b.found == 0 {
        None
    } else {
        Some(Contact { height: b.z, touch })
    }
}

// Whether z takes the place of what was found.
fn higher(b: Best, z: f64) -> bool
    ensures { Higher (contact_of b) z result }
{
    if b.found == 0 {
        return true;
    }
    plane::exceeds(z, b.z)
}

// What was found, and v if it is higher and lies in the capsule.
fn offer(k: Capsule, best: Best, v: Point) -> Best
    ensures { contact_of result ≡ offer_of k (contact_of best) v }
{
    let touch = v.touch;
    let z = v.z;
    if !higher(best, z) {
        return best;
    }
    if plane::dist2_to_segment(v.x, v.y, k.px, k.py, k.qx, k.qy) <= k.limit {
        return Best { found: 1, z, touch };
    }
    best
}

// What was found, and the corners.
fn offer_corners(k: Capsule, best: Best, t: Triangle) -> Best
    ensures { contact_of result ≡ offered_all k (contact_of best) (corners t) }
{
    let a = offer(
        k,
        best,
        Point {
            x: t.ax,
            y: t.ay,
            z: t.az,
            touch: Touch {
                kind: plane::CORNER,
                which: 0,
            },
        },
    );
    let b = offer(
        k,
        a,
        Point {
            x: t.bx,
            y: t.by,
            z: t.bz,
            touch: Touch {
                kind: plane::CORNER,
                which: 1,
            },
        },
    );
    offer(
        k,
        b,
        Point {
            x: t.cx,
            y: t.cy,
            z: t.cz,
            touch: Touch {
                kind: plane::CORNER,
                which: 2,
            },
        },
    )
}

// What was found, and where the edges cross the capsule's boundary.
fn offer_edges(k: Capsule, best: Best, t: Triangle) -> Best
    ensures { contact_of result ≡ offered_all k (contact_of best) (each (crossed k) (edges t)) }
{
    let mut b = best;
    for i in 0..3usize {
        b = offer_crossings(k, b, edge_of(t, i));
    }
    b
}

// Edge i of a triangle.
fn edge_of(t: Triangle, i: usize) -> Edge
    ensures { result ≡ get_or (edges t) i result }
{
    if i == 0 {
        return edge_between(0, t.ax, t.ay, t.az, t.bx, t.by, t.bz);
    }
    if i == 1 {
        return edge_between(1, t.bx, t.by, t.bz, t.cx, t.cy, t.cz);
    }
    edge_between(2, t.cx, t.cy, t.cz, t.ax, t.ay, t.az)
}

// Edge k, from a to b.
fn edge_between(k: u32, ax: f64, ay: f64, az: f64, bx: f64, by: f64, bz: f64) -> Edge
    ensures { result ≡ edge_of k (record { x = ax; y = ay; z = az; touch = corner k }) (record { x = bx; y = by; z = bz; touch = corner k }) }
{
    Edge {
        x: ax,
        y: ay,
        z: az,
        dx: bx - ax,
        dy: by - ay,
        dz: bz - az,
        which: k,
    }
}

// What was found, and where an edge crosses the capsule's boundary.
fn offer_crossings(k: Capsule, best: Best, e: Edge) -> Best
    ensures { contact_of result ≡ offered_all k (contact_of best) (crossed k e) }
{
    if under(best, e) {
        return best;
    }
    offer_crossed(k, best, e)
}

// Whether no point of an edge is higher than what was found: neither end, as points of the edge are computed, at 0 and at 1. Only where the numbers
// are of ordinary size; a false says nothing.
fn under(best: Best, e: Edge) -> bool
    ensures { result ≡ true → NotAbove (contact_of best) e }
{
    let z = best.z;
    let a = e.z + 0.0 * e.dz;
    let b = e.z + 1.0 * e.dz;
    if best.found == 0 {
        return false;
    }
    if numbers::max(a, b) <= z {
        return are_ordinary(a, b);
    }
    false
}

// Whether two numbers are of ordinary size.
fn are_ordinary(a: f64, b: f64) -> bool
    ensures { result ≡ true → Ordinary a b }
{
    if numbers::abs(a) <= 3e6 {
        return numbers::abs(b) <= 3e6;
    }
    false
}

// The same of an edge that may be higher.
fn offer_crossed(k: Capsule, best: Best, e: Edge) -> Best
    ensures { contact_of result ≡ offered_all k (contact_of best) (crossed k e) }
{
    if e.dx * e.dx + e.dy * e.dy > 0.0 {
        let b = offer_circles(k, best, e);
        if k.len > 0.0 {
            return offer_sides(k, b, e);
        }
        return b;
    }
    best
}

// What was found, and where an edge crosses the circles around p and q.
fn offer_circles(k: Capsule, best: Best, e: Edge) -> Best
    ensures { contact_of result ≡ offered_all k (contact_of best) (each (circled k e) (ends k)) }
{
    let n = circles_of(k);
    let mut b = best;
    for i in 0..n {
        b = offer_circle(k, b, e, end_of(k, i));
    }
    b
}

// How many circles there are: two, and around one point one, as what was offered before changes nothing.
fn circles_of(k: Capsule) -> usize
    ensures { (result ≡ 2) ⊎ ((result ≡ 1) × (k.px ≡ k.qx) × (k.py ≡ k.qy)) }
{
    if same(Place { x: k.px, y: k.py }, Place { x: k.qx, y: k.qy }) {
        1
    } else {
        2
    }
}

// Whether two places are the same, and to the bit: a false may be wrong, a true is not.
fn same(a: Place, b: Place) -> bool
    ensures { result ≡ true → a ≡ b }
{
    if same_number(a.x, b.x) {
        return same_number(a.y, b.y);
    }
    false
}

// The same of two numbers: a zero is not one of the other sign.
fn same_number(x: f64, y: f64) -> bool
    ensures { result ≡ true → x ≡ y }
{
    if x == y {
        return f64::to_bits(x) == f64::to_bits(y);
    }
    false
}

// What was found, and where an edge crosses the straight sides.
fn offer_sides(k: Capsule, best: Best, e: Edge) -> Best
    ensures { contact_of result ≡ offered_all k (contact_of best) (each (sided k e) sides) }
{
    let mut b = best;
    for i in 0..2usize {
        b = offer_side(k, b, e, side_of(i));
    }
    b
}

// End i of the segment.
fn end_of(k: Capsule, i: usize) -> Place
    ensures { result ≡ get_or (ends k) i result }
{
    if i == 0 {
        Place { x: k.px, y: k.py }
    } else {
        Place { x: k.qx, y: k.qy }
    }
}

// Side i of the segment.
fn side_of(i: usize) -> f64
    ensures { result ≡ get_or sides i result }
{
    if i == 0 { MINUS_ONE } else { 1.0 }
}

// What was found, and where an edge crosses the circle around c.
fn offer_circle(k: Capsule, best: Best, e: Edge, c: Place) -> Best
    ensures { contact_of result ≡ offered_all k (contact_of best) (circled k e c) }
{
    let fx = e.x - c.x;
    let fy = e.y - c.y;
    let ee = e.dx * e.dx + e.dy * e.dy;
    let bq = 2.0 * (fx * e.dx + fy * e.dy);
    let cq = fx * fx + fy * fy - k.r * k.r;
    let disc = bq * bq - 4.0 * ee * cq;
    if disc >= 0.0 {
        let s = roots::root(disc);
        let b = offer_at(k, best, e, (-bq - s) / (2.0 * ee));
        return offer_at(k, b, e, (-bq + s) / (2.0 * ee));
    }
    best
}

// What was found, and where an edge crosses a straight side.
fn offer_side(k: Capsule, best: Best, e: Edge, side: f64) -> Best
    ensures { contact_of result ≡ offered_all k (contact_of best) (sided k e side) }
{
    let den = e.dx * k.nx + e.dy * k.ny;
    if den != 0.0 {
        let off = side * k.r - ((e.x - k.px) * k.nx + (e.y - k.py) * k.ny);
        return offer_at(k, best, e, off / den);
    }
    best
}

// What was found, and the point at t along an edge.
fn offer_at(k: Capsule, best: Best, e: Edge, t: f64) -> Best
    ensures { contact_of result ≡ offered_all k (contact_of best) (reached e t) }
{
    if on_edge(t) {
        let s = numbers::clamp_unit(t);
        return offer(
            k,
            best,
            Point {
                x: e.x + s * e.dx,
                y: e.y + s * e.dy,
                z: e.z + s * e.dz,
                touch: Touch {
                    kind: plane::EDGE,
                    which: e.which,
                },
            },
        );
    }
    best
}

// Whether t lies on an edge.
fn on_edge(t: f64) -> bool
    ensures { result ≡ on_edge t }
{
    t >= MINUS_SLACK && t <= PAST_ONE
}

// What was found, and the inner points of a triangle that does not stand upright.
fn offer_inner(k: Capsule, best: Best, t: Triangle) -> Best
    ensures { contact_of result ≡ offered_all k (contact_of best) (inner k t) }
{
    let nz = (t.bx - t.ax) * (t.cy - t.ay) - (t.cx - t.ax) * (t.by - t.ay);
    if numbers::abs(nz) > 1e-300 {
        return offer_extremes(k, best, t, rise_of(t, k.r));
    }
    best
}

// What was found, and the points of a triangle over the extreme points of the capsule, of which a single point has few.
fn offer_extremes(k: Capsule, best: Best, t: Triangle, h: Rise) -> Best
    ensures { contact_of result ≡ offered_all k (contact_of best) (each (plane_over t) (places k h)) }
{
    if is_single(k) {
        return offer_firsts(k, best, t, h);
    }
    offer_places(k, best, t, h)
}

// Whether both ends of the segment and all four side ends are one place, to the bit.
fn is_single(k: Capsule) -> bool
    ensures { result ≡ true → Single k }
{
    let p = Place { x: k.px, y: k.py };
    if !same(p, Place { x: k.qx, y: k.qy }) {
        return false;
    }
    if !same(p, flank_at(k, k.px, k.py, MINUS_ONE)) {
        return false;
    }
    same(p, flank_at(k, k.px, k.py, 1.0))
}

// What was found, and the points over that place and over its tangent point.
fn offer_firsts(k: Capsule, best: Best, t: Triangle, h: Rise) -> Best
    ensures { contact_of result ≡ offered_all k (contact_of best) (each (plane_over t) (firsts k h)) }
{
    let b = offer_over(k, best, t, end_of(k, 0));
    if h.g > 0.0 {
        return offer_over(k, b, t, tangent_of(k, h, 0));
    }
    b
}

// How a triangle rises.
fn rise_of(t: Triangle, r: f64) -> Rise
    ensures { result ≡ rise_of t r }
{
    let nz = (t.bx - t.ax) * (t.cy - t.ay) - (t.cx - t.ax) * (t.by - t.ay);
    let gx = ((t.bz - t.az) * (t.cy - t.ay) - (t.cz - t.az) * (t.by - t.ay)) / nz;
    let gy = ((t.bx - t.ax) * (t.cz - t.az) - (t.cx - t.ax) * (t.bz - t.az)) / nz;
    let g = length_of(gx, gy);
    Rise {
        g,
        x: r * gx / g,
        y: r * gy / g,
    }
}

// The same one after the other.
fn offer_places(k: Capsule, best: Best, t: Triangle, h: Rise) -> Best
    ensures { contact_of result ≡ offered_all k (contact_of best) (each (plane_over t) (places k h)) }
{
    let n = count_of(h);
    let mut b = best;
    for i in 0..n {
        b = offer_over(k, b, t, place_of(k, h, i));
    }
    b
}

// How many extreme points there are.
fn count_of(h: Rise) -> usize
    ensures { result ≡ cond (lt f0 h.g) 8 6 }
{
    if h.g > 0.0 { 8 } else { 6 }
}

// Extreme point i of the capsule.
fn place_of(k: Capsule, h: Rise, i: usize) -> Place
    ensures { result ≡ get_or (places k h) i result }
{
    if i < 2 {
        return end_of(k, i);
    }
    if h.g > 0.0 {
        if i < 4 {
            return tangent_of(k, h, i - 2);
        }
        return flank_of(k, i - 4);
    }
    flank_of(k, i - 2)
}

// The tangent point at end i of the segment.
fn tangent_of(k: Capsule, h: Rise, i: usize) -> Place
    ensures { result ≡ get_or (tangents k h) i result }
{
    if i == 0 {
        Place {
            x: k.px + h.x,
            y: k.py + h.y,
        }
    } else {
        Place {
            x: k.qx + h.x,
            y: k.qy + h.y,
        }
    }
}

// Side end i.
fn flank_of(k: Capsule, i: usize) -> Place
    ensures { result ≡ get_or (flanks k) i result }
{
    if i == 0 {
        return flank_at(k, k.px, k.py, MINUS_ONE);
    }
    if i == 1 {
        return flank_at(k, k.px, k.py, 1.0);
    }
    if i == 2 {
        return flank_at(k, k.qx, k.qy, MINUS_ONE);
    }
    flank_at(k, k.qx, k.qy, 1.0)
}

// Where a straight side ends at (x, y).
fn flank_at(k: Capsule, x: f64, y: f64, side: f64) -> Place
    ensures { result ≡ flank k x y side }
{
    Place {
        x: x + side * k.r * k.nx,
        y: y + side * k.r * k.ny,
    }
}

// What was found, and the point of a triangle over a place.
fn offer_over(k: Capsule, best: Best, t: Triangle, p: Place) -> Best
    ensures { contact_of result ≡ offered_all k (contact_of best) (plane_over t p) }
{
    match plane::bary(t, p.x, p.y) {
        None => best,
        Some(w) => {
            if plane::at_least(w, MINUS_SLACK) {
                offer(
                    k,
                    best,
                    Point {
                        x: p.x,
                        y: p.y,
                        z: w.u * t.az + w.v * t.bz + w.w * t.cz,
                        touch: Touch {
                            kind: plane::FACE,
                            which: 0,
                        },
                    },
                )
            } else {
                best
            }
        }
    }
}
