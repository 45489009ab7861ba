// What the contacts of round cutters share: a triangle's edges, the stretch of an edge under a cutter, the place on a facet where a cutter rests.
#![tactic(auto)]

ghost use Rattle.std.specs.Prelude.{◌≡◌};
ghost use Rattle.cutters.specs.Touch.{edge_ab, edge_bc, edge_ca, crossed_of, reached_of, gradient_of, facing_of, rest_of, weighed_of, spot_height, facet_height};

use plane::{Contact, Touch, Triangle, Weights};

// An edge from a to b, and which of the three it is; the numbers of the plan stand side by side, as a search reads them.
#[derive(Clone, Copy)]
pub struct Edge {
    pub ax: f64,
    pub ay: f64,
    pub bx: f64,
    pub by: f64,
    pub az: f64,
    pub bz: f64,
    pub which: u32,
}

// A stretch of an edge from one place to another, each between 0 and 1.
#[derive(Clone, Copy)]
pub struct Stretch {
    pub from: f64,
    pub to: f64,
}

// A plane's slopes in x and y, and its steepest slope.
#[derive(Clone, Copy)]
pub struct Gradient {
    pub x: f64,
    pub y: f64,
    pub steep: f64,
}

// A place in plan where a cutter rests, and the cutter's height there over its tip.
#[derive(Clone, Copy)]
pub struct Rest {
    pub x: f64,
    pub y: f64,
    pub drop: f64,
}

// The edge from the first vertex to the second.
pub fn edge_ab(t: Triangle) -> Edge
    ensures { result ≡ edge_ab t }
{
    Edge {
        ax: t.ax,
        ay: t.ay,
        az: t.az,
        bx: t.bx,
        by: t.by,
        bz: t.bz,
        which: 0,
    }
}

// The edge from the second vertex to the third.
pub fn edge_bc(t: Triangle) -> Edge
    ensures { result ≡ edge_bc t }
{
    Edge {
        ax: t.bx,
        ay: t.by,
        az: t.bz,
        bx: t.cx,
        by: t.cy,
        bz: t.cz,
        which: 1,
    }
}

// The edge from the third vertex to the first.
pub fn edge_ca(t: Triangle) -> Edge
    ensures { result ≡ edge_ca t }
{
    Edge {
        ax: t.cx,
        ay: t.cy,
        az: t.cz,
        bx: t.ax,
        by: t.ay,
        bz: t.az,
        which: 2,
    }
}

// The stretch of an edge within r of the axis (x, y).
#[tactic(auto, unfolding(crate::specs::Touch::reached_of))]
pub fn reached(e: Edge, x: f64, y: f64, r: f64) -> Option<Stretch>
    ensures { result ≡ reached_of e x y r }
{
    let ex = e.bx - e.ax;
    let ey = e.by - e.ay;
    let wx = e.ax - x;
    let wy = e.ay - y;
    let qa = ex * ex + ey * ey;
    let qb = 2.0 * (ex * wx + ey * wy);
    let qc = wx * wx + wy * wy - r * r;
    if qa <= 0.0 {
        return None;
    }
    let disc = qb * qb - 4.0 * qa * qc;
    if disc < 0.0 {
        return None;
    }
    crossed(qa, qb, roots::root(disc))
}

// The stretch between 0 and 1 of the roots of a quadratic, whose discriminant has the root given.
#[tactic(auto, unfolding(crate::specs::Touch::crossed_of))]
fn crossed(qa: f64, qb: f64, root: f64) -> Option<Stretch>
    ensures { result ≡ crossed_of qa qb root }
{
    let t0 = numbers::max((-qb - root) / (2.0 * qa), 0.0);
    let t1 = numbers::min((-qb + root) / (2.0 * qa), 1.0);
    if t0 > t1 {
        None
    } else {
        Some(Stretch { from: t0, to: t1 })
    }
}

// Which way a triangle leans: none where it stands upright.
#[tactic(auto, unfolding(crate::specs::Touch::facing_of))]
pub fn facing_of(t: Triangle) -> Option<Gradient>
    ensures { result ≡ facing_of t }
{
    let bx = t.bx - t.ax;
    let by = t.by - t.ay;
    let cx = t.cx - t.ax;
    let cy = t.cy - t.ay;
    let det = bx * cy - cx * by;
    if numbers::abs(det) > 1e-300 {
        Some(gradient_of(t, det))
    } else {
        None
    }
}

// A triangle's slopes, from its determinant.
#[tactic(auto, unfolding(crate::specs::Touch::gradient_of))]
fn gradient_of(t: Triangle, det: f64) -> Gradient
    ensures { result ≡ gradient_of t det }
{
    let bx = t.bx - t.ax;
    let by = t.by - t.ay;
    let bz = t.bz - t.az;
    let cx = t.cx - t.ax;
    let cy = t.cy - t.ay;
    let cz = t.cz - t.az;
    let gx = (bz * cy - cz * by) / det;
    let gy = (cz * bx - bz * cx) / det;
    Gradient {
        x: gx,
        y: gy,
        steep: roots::hypot(gx, gy),
    }
}

// The place at `reach` from the axis (x, y) up the slope.
#[tactic(auto, unfolding(crate::specs::Touch::rest_of))]
pub fn rest_at(g: Gradient, x: f64, y: f64, reach: f64, drop: f64) -> Rest
    ensures { result ≡ rest_of g x y reach drop }
{
    Rest {
        x: x + g.x / g.steep * reach,
        y: y + g.y / g.steep * reach,
        drop,
    }
}

const LEAST: f64 = -1e-12;

// The tip's height where a cutter rests on a triangle's facet.
#[tactic(auto, unfolding(crate::specs::Touch::facet_height))]
pub fn facet_height(t: Triangle, p: Rest) -> Option<Contact>
    ensures { result ≡ facet_height t p }
{
    let drop = p.drop;
    spot_height(t, drop, plane::bary(t, p.x, p.y))
}

// The same, from the place's weights: none on an upright triangle.
#[tactic(auto, unfolding(crate::specs::Touch::spot_height))]
fn spot_height(t: Triangle, drop: f64, s: Option<Weights>) -> Option<Contact>
    ensures { result ≡ spot_height t drop s }
{
    match s {
        None => None,
        Some(p) => weighed(t, drop, p),
    }
}

// The tip's height at a place of the weights p.
#[tactic(auto, unfolding(crate::specs::Touch::weighed_of))]
fn weighed(t: Triangle, drop: f64, p: Weights) -> Option<Contact>
    ensures { result ≡ weighed_of t drop p }
{
    let z = p.u * t.az + p.v * t.bz + p.w * t.cz - drop;
    if plane::at_least(p, LEAST) {
        Some(Contact {
            height: z,
            touch: Touch {
                kind: plane::FACE,
                which: 0,
            },
        })
    } else {
        None
    }
}
