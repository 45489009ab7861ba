// A bull-nose cutter: its profile, and its contact with one triangle.
#![tactic(auto)]

ghost use Rattle.std.specs.Prelude.{true, ◌≡◌};
ghost use Rattle.std.specs.Float.Ieee.{le};
ghost use Rattle.plane.specs.Contacts.{edge, take_of};
ghost use Rattle.above.specs.Above.{offer_of, so_far};
ghost use Rattle.bound.specs.Inside.{Beyond};
ghost use Rattle.cutters.specs.Touch.{facing_of};
ghost use Rattle.golden.specs.Search.{rises, golden_start, golden_step, golden_max};
ghost use Rattle.caps.specs.Inside.{InnerOf, Alike};
ghost use Rattle.bull.specs.Inside.{way_of, way_at, base_of, cap_of, FlatTo, Begun};
ghost use Rattle.bull.specs.Bull.{bull_profile, bull_over, bull_vertex, bull_vertices, bull_at, bull_stretch, best_so_far, too_low, bull_edge};
ghost use Rattle.bull.specs.Bull.{bull_edges, bull_sloped, bull_rest, bull_facet, bull_contact_above, bull_contact};

use cutters::{Edge, Gradient, Rest, Stretch};
use golden::Golden;
use plane::{Contact, Touch, Triangle};

pub mod cap;

const MINUS_ONE: f64 = -1.0;

// A bull-nose cutter of the radius r and the corner radius rc, its axis at (x, y).
#[derive(Clone, Copy)]
pub struct Bull {
    pub x: f64,
    pub y: f64,
    pub r: f64,
    pub rc: f64,
}

// The tip's height where the cutter rests on the triangle.
pub fn bull_contact(t: Triangle, k: Bull) -> Option<Contact>
    ensures { result ≡ bull_contact t k }
{
    bull_contact_above(t, k, MINUS_ONE / 0.0)
}

// The same, without the edges that cannot exceed the floor.
pub fn bull_contact_above(t: Triangle, k: Bull, floor: f64) -> Option<Contact>
    ensures { result ≡ bull_contact_above t k floor }
{
    contact_on(t, k, floor, None)
}

// The same on top of a best so far that is the floor: what cannot exceed it is left out.
pub fn bull_contact_on(t: Triangle, k: Bull, floor: f64) -> Option<Contact>
    ensures { result ≡ offer_of (so_far floor) (bull_contact_above t k floor) }
{
    let on = above::so_far(floor);
    if floor != floor {
        return above::offer(on, bull_contact_above(t, k, floor));
    }
    contact_on(t, k, floor, on)
}

// The candidates on top of the contact c.
fn contact_on(t: Triangle, k: Bull, floor: f64, c: Option<Contact>) -> Option<Contact>
    ensures { result ≡ offer_of (bull_edges k floor t (offer_of c (bull_vertices k t))) (bull_facet k t (facing_of t)) }
{
    let base = cap::base_of(k);
    let far = bound::beyond(k.r);
    let e = edges(k, base, floor, t, vertices(k, base, far, t, c));
    above::offer(e, facet(k, t, cutters::facing_of(t)))
}

// The cutter's height over its tip at the distance d from its axis.
#[tactic(auto, unfolding(crate::specs::Bull::bull_profile))]
pub fn bull_profile(d: f64, r: f64, rc: f64) -> f64
    ensures { result ≡ bull_profile d r rc }
{
    let s = d - (r - rc);
    if s <= 0.0 {
        0.0
    } else {
        rc - roots::root(numbers::max(rc * rc - s * s, 0.0))
    }
}

// The contact c with the vertices' candidates.
fn vertices(k: Bull, base: f64, far: f64, t: Triangle, c: Option<Contact>) -> Option<Contact>
    requires { (base ≡ base_of k) × Beyond k.r far }
    ensures { result ≡ offer_of c (bull_vertices k t) }
{
    let a = vertex(k, base, far, 0, t.ax, t.ay, t.az, c);
    let b = vertex(k, base, far, 1, t.bx, t.by, t.bz, a);
    vertex(k, base, far, 2, t.cx, t.cy, t.cz, b)
}

// The contact c with the candidate of vertex n, unless that cannot exceed c or the squares show that there is none.
fn vertex(
    k: Bull,
    base: f64,
    far: f64,
    n: u32,
    x: f64,
    y: f64,
    z: f64,
    c: Option<Contact>,
) -> Option<Contact>
    requires { (base ≡ base_of k) × Beyond k.r far }
    ensures { result ≡ offer_of c (bull_vertex k n x y z) }
{
    let dx = x - k.x;
    let dy = y - k.y;
    if cap::low_vertex(base, z, dx, dy, above::limit(c)) {
        return c;
    }
    if dx * dx + dy * dy >= far {
        return c;
    }
    above::offer(c, over(k, n, z, roots::hypot(dx, dy)))
}

// The candidate of corner n at the distance d from the axis.
#[tactic(auto, unfolding(crate::specs::Bull::bull_over))]
fn over(k: Bull, n: u32, z: f64, d: f64) -> Option<Contact>
    ensures { result ≡ bull_over k n z d }
{
    if d <= k.r {
        Some(Contact {
            height: z - bull_profile(d, k.r, k.rc),
            touch: Touch {
                kind: plane::CORNER,
                which: n,
            },
        })
    } else {
        None
    }
}

// The contact c with the edges' candidates.
fn edges(k: Bull, base: f64, floor: f64, t: Triangle, c: Option<Contact>) -> Option<Contact>
    requires { base ≡ base_of k }
    ensures { result ≡ bull_edges k floor t c }
{
    let ab = edge(k, base, floor, c, cutters::edge_ab(t));
    let bc = edge(k, base, floor, ab, cutters::edge_bc(t));
    edge(k, base, floor, bc, cutters::edge_ca(t))
}

// The contact c with the candidate of an edge, unless the edge cannot exceed the floor or c.
fn edge(k: Bull, base: f64, floor: f64, c: Option<Contact>, e: Edge) -> Option<Contact>
    requires { base ≡ base_of k }
    ensures { result ≡ bull_edge k floor c e }
{
    if too_low(floor, c, e) {
        return c;
    }
    stretch_on(k, base, e, c, cutters::reached(e, k.x, k.y, k.r))
}

// Whether an edge's higher end is not above the floor and the best so far.
#[tactic(auto, unfolding(crate::specs::Bull::too_low))]
fn too_low(floor: f64, c: Option<Contact>, e: Edge) -> bool
    ensures { result ≡ too_low floor c e }
{
    numbers::max(e.az, e.bz) <= numbers::max(floor, best_so_far(c))
}

// The best height so far.
#[tactic(auto, unfolding(crate::specs::Bull::best_so_far))]
fn best_so_far(c: Option<Contact>) -> f64
    ensures { result ≡ best_so_far c }
{
    match c {
        None => MINUS_ONE / 0.0,
        Some(best) => best.height,
    }
}

// The contact c with the best of an edge's stretch.
#[tactic(auto, unfolding(above::specs::Above::offer_of, crate::specs::Bull::bull_stretch))]
fn stretch_on(
    k: Bull,
    base: f64,
    e: Edge,
    c: Option<Contact>,
    s: Option<Stretch>,
) -> Option<Contact>
    requires { base ≡ base_of k }
    ensures { result ≡ offer_of c (bull_stretch k e s) }
{
    match s {
        None => c,
        Some(part) => raised(k, base, e, c, part.from, part.to),
    }
}

// The contact c with the largest tip's height between two places of an edge. Where no place there exceeds c there is no search.
fn raised(k: Bull, base: f64, e: Edge, c: Option<Contact>, lo: f64, hi: f64) -> Option<Contact>
    requires { base ≡ base_of k }
    ensures { result ≡ take_of c (golden_max (bull_at k e) lo hi 40) (edge e.which) }
{
    let cap = cap::cap_on(k, base, e, lo, hi);
    if cap <= above::limit(c) {
        return c;
    }
    searched(k, base, e, cap, c, lo, hi)
}

// The contact c with the height that the search finds.
fn searched(
    k: Bull,
    base: f64,
    e: Edge,
    cap: f64,
    c: Option<Contact>,
    lo: f64,
    hi: f64,
) -> Option<Contact>
    requires { (base ≡ base_of k) × (cap ≡ cap_of k (base_of k) e lo hi) }
    ensures { result ≡ take_of c (golden_max (bull_at k e) lo hi 40) (edge e.which) }
{
    let which = e.which;
    plane::take(
        c,
        search(k, base, e, cap, above::limit(c), lo, hi),
        Touch {
            kind: plane::EDGE,
            which,
        },
    )
}

// The largest tip's height between two places of an edge, or one that is as good beside the limit: the larger end's, where no place exceeds it.
fn search(k: Bull, base: f64, e: Edge, cap: f64, limit: f64, lo: f64, hi: f64) -> f64
    requires { (base ≡ base_of k) × (cap ≡ cap_of k (base_of k) e lo hi) }
    ensures { Alike limit result (golden_max (bull_at k e) lo hi 40) }
{
    let w = way_of(e);
    let flat = flat_of(k);
    let low = at(k, w, flat, lo);
    let m = numbers::max(low, at(k, w, flat, hi));
    if cap <= m {
        return m;
    }
    search_on(k, base, e, w, flat, lo, hi, m, limit)
}

// A number up to which the square of a distance shows that the distance is within the flat part, so that no distance is taken there.
fn flat_of(k: Bull) -> f64
    ensures { FlatTo k result }
{
    let r = k.r;
    let part = r - k.rc;
    if !plane::is_radius(r) {
        return MINUS_ONE;
    }
    if !plane::is_radius(part) {
        return MINUS_ONE;
    }
    bound::within(part)
}

// An edge as the search reads it: where it starts and how far its end lies from there, the numbers of the plan side by side.
#[derive(Clone, Copy)]
pub struct Way {
    pub ax: f64,
    pub ay: f64,
    pub ex: f64,
    pub ey: f64,
    pub az: f64,
    pub ez: f64,
}

// The way along an edge.
fn way_of(e: Edge) -> Way
    ensures { result ≡ way_of e }
{
    Way {
        ax: e.ax,
        ay: e.ay,
        ex: e.bx - e.ax,
        ey: e.by - e.ay,
        az: e.az,
        ez: e.bz - e.az,
    }
}

// The same along the way, m being the larger end's height. The search is given up once nothing that it can still find exceeds that or the limit.
fn search_on(
    k: Bull,
    base: f64,
    e: Edge,
    w: Way,
    flat: f64,
    lo: f64,
    hi: f64,
    m: f64,
    limit: f64,
) -> f64
    requires { Begun k base e w flat lo hi m }
    ensures { Alike limit result (golden_max (way_at k w) lo hi 40) }
{
    let bar = numbers::max(m, limit);
    let mut g = start(k, w, flat, lo, hi);
    for n in 0..40usize {
        if settled(k, base, e, bar, g, n) {
            return m;
        }
        g = step(k, w, flat, g);
    }
    numbers::max(numbers::max(m, g.f1), g.f2)
}

// Whether the search may be given up before step n: no place in the bracket that it has come to exceeds the bar.
#[tactic(auto, unfolding(crate::specs::Inside::cap_of))]
fn settled(k: Bull, base: f64, e: Edge, bar: f64, g: Golden, n: usize) -> bool
    ensures { result ≡ true → InnerOf g × (le (cap_of k base e g.a g.b) bar ≡ true) }
{
    let a = g.a;
    let b = g.b;
    let f1 = g.f1;
    let f2 = g.f2;
    if caps::looks(g, n) {
        if f1 <= bar {
            if f2 <= bar {
                return cap::cap_on(k, base, e, a, b) <= bar;
            }
        }
    }
    false
}

// The search's first bracket.
fn start(k: Bull, w: Way, flat: f64, lo: f64, hi: f64) -> Golden
    requires { FlatTo k flat }
    ensures { result ≡ golden_start (way_at k w) lo hi }
{
    let u = golden::lower_point(lo, hi);
    let v = golden::upper_point(lo, hi);
    golden::start(lo, hi, at(k, w, flat, u), at(k, w, flat, v))
}

// A step of the search.
fn step(k: Bull, w: Way, flat: f64, g: Golden) -> Golden
    requires { FlatTo k flat }
    ensures { result ≡ golden_step rises (way_at k w) g }
{
    let left = golden::drops_low(g);
    let p = golden::probe(left, g);
    golden::narrowed(left, g, p, at(k, w, flat, p))
}

// The tip's height over the way's point at t.
fn at(k: Bull, w: Way, flat: f64, t: f64) -> f64
    requires { FlatTo k flat }
    ensures { result ≡ way_at k w t }
{
    let z = w.az + t * w.ez;
    let r = k.r;
    let rc = k.rc;
    let dx = w.ax + t * w.ex - k.x;
    let dy = w.ay + t * w.ey - k.y;
    if dx * dx + dy * dy <= flat {
        return z - 0.0;
    }
    let d = numbers::min(roots::hypot(dx, dy), r);
    z - bull_profile(d, r, rc)
}

// The candidate of the facet.
#[tactic(auto, unfolding(crate::specs::Bull::bull_facet))]
fn facet(k: Bull, t: Triangle, f: Option<Gradient>) -> Option<Contact>
    ensures { result ≡ bull_facet k t f }
{
    match f {
        None => None,
        Some(g) => cutters::facet_height(t, rest(k, g)),
    }
}

// Where the cutter rests on a plane.
#[tactic(auto, unfolding(crate::specs::Bull::bull_rest))]
pub fn rest(k: Bull, g: Gradient) -> Rest
    ensures { result ≡ bull_rest k g }
{
    let steep = g.steep;
    if steep < 1e-15 {
        Rest {
            x: k.x,
            y: k.y,
            drop: 0.0,
        }
    } else {
        sloped(k, g, roots::root(1.0 + steep * steep))
    }
}

// Where the cutter rests on a plane that is not level; root is that of 1 and the slope's square.
#[tactic(auto, unfolding(crate::specs::Bull::bull_sloped))]
fn sloped(k: Bull, g: Gradient, root: f64) -> Rest
    ensures { result ≡ bull_sloped k g root }
{
    cutters::rest_at(
        g,
        k.x,
        k.y,
        k.r - k.rc + k.rc * g.steep / root,
        k.rc - k.rc / root,
    )
}
