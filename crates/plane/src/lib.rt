// Triangles of the mesh, seen from above: ranges of coordinates, a triangle's box, plan distances, what a contact is and the best so far.
#![tactic(auto)]

ghost use Rattle.std.specs.Prelude.{◌≡◌, ◌+◌, ◌*◌, ◌≤◌, length};
ghost use Rattle.plane.specs.Ranges.{is_coordinate, is_radius, is_point};
ghost use Rattle.plane.specs.Mesh.{triangle_of, lowest, highest, top_of, bounds_of};
ghost use Rattle.plane.specs.Contacts.{exceeds_of, take_of, raised_to, raised_by};
ghost use Rattle.plane.specs.Distance.{nearest_t, dist2_to_segment, bary_of, at_least, edge_distance, distance_xy};

const MILLION: f64 = 1e6;

const MINUS_MILLION: f64 = -1e6;

// The corners a, b and c of a triangle.
#[derive(Clone, Copy)]
pub struct Triangle {
    pub ax: f64,
    pub ay: f64,
    pub az: f64,
    pub bx: f64,
    pub by: f64,
    pub bz: f64,
    pub cx: f64,
    pub cy: f64,
    pub cz: f64,
}

// A triangle's box seen from above, and its highest z.
#[derive(Clone, Copy)]
pub struct Bounds {
    pub low_x: f64,
    pub low_y: f64,
    pub high_x: f64,
    pub high_y: f64,
    pub top: f64,
}

// The kinds of a touch.
pub const CORNER: u32 = 1;

pub const EDGE: u32 = 2;

pub const FACE: u32 = 3;

// What of a triangle is touched: its kind is 1 for a corner, 2 for an edge and 3 for the face, and `which` of the three corners or edges, from 0 on;
// 0 for the face.
#[derive(Clone, Copy)]
pub struct Touch {
    pub kind: u32,
    pub which: u32,
}

// Where the tool meets a triangle: at a height, with what is touched there.
#[derive(Clone, Copy)]
pub struct Contact {
    pub height: f64,
    pub touch: Touch,
}

// How much of each corner a place in plan is made of.
#[derive(Clone, Copy)]
pub struct Weights {
    pub u: f64,
    pub v: f64,
    pub w: f64,
}

// The highest contact so far: its height, the triangle that last raised it, and what of that triangle is touched, its kind and which of three. A kind
// of 0 is the floor, which no triangle has raised; triangle and which are 0 then.
#[derive(Clone, Copy)]
pub struct Best {
    pub height: f64,
    pub triangle: u32,
    pub kind: u32,
    pub which: u32,
}

// Whether x can be a coordinate or a floor.
pub fn is_coordinate(x: f64) -> bool
    ensures { result ≡ is_coordinate x }
{
    x >= MINUS_MILLION && x <= MILLION
}

// Whether r can be an index radius.
#[tactic(auto, unfolding(crate::specs::Ranges::is_radius))]
pub fn is_radius(r: f64) -> bool
    ensures { result ≡ is_radius r }
{
    r >= 0.0 && r <= MILLION
}

// Whether x can be a coordinate of a question's point.
#[tactic(auto, unfolding(crate::specs::Ranges::is_point))]
pub fn is_point(x: f64) -> bool
    ensures { result ≡ is_point x }
{
    numbers::abs(x) <= 3e6
}

// Triangle i of a mesh.
#[tactic(auto, unfolding(crate::specs::Mesh::triangle_of))]
pub fn triangle_at(mesh: &[f64], i: usize) -> Triangle
    requires { 9 * i + 9 ≤ length mesh.now }
    ensures { result ≡ triangle_of mesh.now i }
{
    let k = 9 * i;
    Triangle {
        ax: mesh[k],
        ay: mesh[k + 1],
        az: mesh[k + 2],
        bx: mesh[k + 3],
        by: mesh[k + 4],
        bz: mesh[k + 5],
        cx: mesh[k + 6],
        cy: mesh[k + 7],
        cz: mesh[k + 8],
    }
}

// The smallest of three numbers.
#[tactic(auto, unfolding(crate::specs::Mesh::lowest))]
fn low(a: f64, b: f64, c: f64) -> f64
    ensures { result ≡ lowest a b c }
{
    numbers::min(numbers::min(a, b), c)
}

// The largest of three numbers.
#[tactic(auto, unfolding(crate::specs::Mesh::highest))]
fn high(a: f64, b: f64, c: f64) -> f64
    ensures { result ≡ highest a b c }
{
    numbers::max(numbers::max(a, b), c)
}

// The highest z of a triangle.
#[tactic(auto, unfolding(crate::specs::Mesh::top_of))]
pub fn top(t: Triangle) -> f64
    ensures { result ≡ top_of t }
{
    high(t.az, t.bz, t.cz)
}

// The box of a triangle.
#[tactic(auto, unfolding(crate::specs::Mesh::bounds_of))]
pub fn bounds_of(t: Triangle) -> Bounds
    ensures { result ≡ bounds_of t }
{
    Bounds {
        low_x: low(t.ax, t.bx, t.cx),
        low_y: low(t.ay, t.by, t.cy),
        high_x: high(t.ax, t.bx, t.cx),
        high_y: high(t.ay, t.by, t.cy),
        top: top(t),
    }
}

// Whether z takes the place of the height b.
#[tactic(auto, using(rules::proofs::Branches::branches), unfolding(crate::specs::Contacts::exceeds_of))]
pub fn exceeds(z: f64, b: f64) -> bool
    ensures { result ≡ exceeds_of z b }
{
    if b != b {
        if z != z { false } else { true }
    } else {
        b < z
    }
}

// The higher of what was met so far and z, which touches t.
#[tactic(auto, using(rules::proofs::Branches::branches), unfolding(crate::specs::Contacts::take_of))]
pub fn take(c: Option<Contact>, z: f64, t: Touch) -> Option<Contact>
    ensures { result ≡ take_of c z t }
{
    match c {
        None => Some(Contact {
            height: z,
            touch: t,
        }),
        Some(best) => {
            if exceeds(z, best.height) {
                Some(Contact {
                    height: z,
                    touch: t,
                })
            } else {
                c
            }
        }
    }
}

// Where along p-q the point nearest to x lies, from 0 to 1.
#[tactic(auto, unfolding(crate::specs::Distance::nearest_t))]
fn nearest_t(x0: f64, x1: f64, p0: f64, p1: f64, q0: f64, q1: f64) -> f64
    ensures { result ≡ nearest_t x0 x1 p0 p1 q0 q1 }
{
    let d0 = q0 - p0;
    let d1 = q1 - p1;
    let l2 = d0 * d0 + d1 * d1;
    if l2 > 0.0 {
        numbers::clamp_unit(((x0 - p0) * d0 + (x1 - p1) * d1) / l2)
    } else {
        0.0
    }
}

// The squared distance of x from the segment p-q.
#[tactic(auto, unfolding(crate::specs::Distance::dist2_to_segment))]
pub fn dist2_to_segment(x0: f64, x1: f64, p0: f64, p1: f64, q0: f64, q1: f64) -> f64
    ensures { result ≡ dist2_to_segment x0 x1 p0 p1 q0 q1 }
{
    let t = nearest_t(x0, x1, p0, p1, q0, q1);
    let c0 = p0 + t * (q0 - p0) - x0;
    let c1 = p1 + t * (q1 - p1) - x1;
    c0 * c0 + c1 * c1
}

// The weights of (x, y) in a triangle: none where it stands upright.
#[tactic(auto, unfolding(crate::specs::Distance::bary_of))]
pub fn bary(t: Triangle, x: f64, y: f64) -> Option<Weights>
    ensures { result ≡ bary_of t x y }
{
    let bx = t.bx - t.ax;
    let by = t.by - t.ay;
    let cx = t.cx - t.ax;
    let cy = t.cy - t.ay;
    let dx = x - t.ax;
    let dy = y - t.ay;
    let det = bx * cy - cx * by;
    if numbers::abs(det) < 1e-300 {
        return None;
    }
    let l1 = (dx * cy - cx * dy) / det;
    let l2 = (bx * dy - dx * by) / det;
    Some(Weights {
        u: 1.0 - l1 - l2,
        v: l1,
        w: l2,
    })
}

// Whether each weight is at least `least`.
#[tactic(auto, unfolding(crate::specs::Distance::at_least))]
pub fn at_least(p: Weights, least: f64) -> bool
    ensures { result ≡ at_least p least }
{
    p.u >= least && (p.v >= least && p.w >= least)
}

// The distance of (x, y) from the nearest edge of a triangle.
fn edge_distance(t: Triangle, x: f64, y: f64) -> f64
    ensures { result ≡ edge_distance t x y }
{
    let none = f64::from_bits(0x7ff0_0000_0000_0000);
    let ab = numbers::min(none, dist2_to_segment(x, y, t.ax, t.ay, t.bx, t.by));
    let bc = numbers::min(ab, dist2_to_segment(x, y, t.bx, t.by, t.cx, t.cy));
    let ca = numbers::min(bc, dist2_to_segment(x, y, t.cx, t.cy, t.ax, t.ay));
    roots::root(ca)
}

// The distance of (x, y) from a triangle, 0 inside.
pub fn distance_xy(t: Triangle, x: f64, y: f64) -> f64
    ensures { result ≡ distance_xy t x y }
{
    match bary(t, x, y) {
        None => edge_distance(t, x, y),
        Some(p) => {
            if at_least(p, 0.0) {
                0.0
            } else {
                edge_distance(t, x, y)
            }
        }
    }
}

// The best so far with the contact of triangle i.
#[tactic(auto, using(rules::proofs::Branches::branches), unfolding(crate::specs::Contacts::raised_by))]
pub fn raise_by(c: Option<Contact>, i: u32, best: Best) -> Best
    ensures { result ≡ raised_by c i best }
{
    match c {
        None => best,
        Some(met) => raise_to(met.height, met.touch, i, best),
    }
}

// The same with a height.
#[tactic(auto, using(rules::proofs::Branches::branches), unfolding(crate::specs::Contacts::raised_to))]
fn raise_to(z: f64, t: Touch, i: u32, best: Best) -> Best
    ensures { result ≡ raised_to z t i best }
{
    if exceeds(z, best.height) {
        return Best {
            height: z,
            triangle: i,
            kind: t.kind,
            which: t.which,
        };
    }
    best
}
