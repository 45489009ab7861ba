// A section of a tool: its profile, its validity, and its contact with one triangle.
#![tactic(auto)]

ghost use Rattle.std.specs.Prelude.{true, ◌≡◌, ◌≤◌};
ghost use Rattle.numbers.specs.Reals.{◌⊕◌};
ghost use Rattle.above.specs.Above.{offer_of};
ghost use Rattle.golden.specs.Search.{rises, golden_start, golden_step, golden_at, golden_max, golden_max_bound};
ghost use Rattle.caps.specs.Inside.{InnerOf, Alike};
ghost use Rattle.section.specs.Inside.{FlatTo, Firm, Clear, cap_of, AsGood, Under, Begun};
ghost use Rattle.section.specs.Section.{within, positive_reach, valid_section, profile_of, height_over, section_under, section_vertex};
ghost use Rattle.section.specs.Section.{section_vertices, section_at, lipschitz_of, section_stretch, section_edge, section_edges};
ghost use Rattle.section.specs.Section.{reach_of, section_sloped, section_rest, section_facet, section_contact};

use cutters::{Edge, Gradient, Rest, Stretch};
use golden::Golden;
use plane::{Contact, Touch, Triangle};
use slide::Stage;

mod low;
mod slide;

// A part of a tool seen from below: level to r0 at z0 over the tip, then rising to r1.
#[derive(Clone, Copy)]
pub struct Section {
    pub z0: f64,
    pub r0: f64,
    pub r1: f64,
    pub rise: f64,
}

// Whether a section is valid.
pub fn valid(s: Section) -> bool
    ensures { result ≡ valid_section s }
{
    let r1 = s.r1;
    let rise = s.rise;
    let r0 = s.r0;
    if !within_range(s.z0, 1e6) {
        return false;
    }
    if !within_range(r0, r1) {
        return false;
    }
    positive(r1, rise)
}

// Whether r1 is above 0 and in its range, and rise in its range.
fn positive(r1: f64, rise: f64) -> bool
    ensures { result ≡ positive_reach r1 rise }
{
    0.0 < r1 && (r1 <= 1e6 && within_range(rise, 1e9))
}

// Whether x is from 0 to `high`.
fn within_range(x: f64, high: f64) -> bool
    ensures { result ≡ within x high }
{
    0.0 <= x && x <= high
}

// The tip's height where the section, its axis at (x, y), rests on the triangle: an upper bound.
pub fn section_contact(t: Triangle, x: f64, y: f64, s: Section) -> Option<Contact>
    ensures { result ≡ section_contact t x y s }
{
    section_contact_on(t, x, y, s, None)
}

// The same on top of the contact c: what cannot exceed c is left out.
pub fn section_contact_on(
    t: Triangle,
    x: f64,
    y: f64,
    s: Section,
    c: Option<Contact>,
) -> Option<Contact>
    ensures { result ≡ offer_of c (section_contact t x y s) }
{
    let low = low::low_of(s);
    let far = far_of(s);
    let e = edges(s, low, x, y, t, vertices(s, low, far, x, y, t, c));
    above::offer(e, facet(s, x, y, t, cutters::facing_of(t)))
}

// The height of the lower surface over the tip at the distance d from the axis.
pub fn profile(s: Section, d: f64) -> Option<f64>
    ensures { result ≡ profile_of s d }
{
    if d <= s.r0 {
        return Some(s.z0);
    }
    if d <= s.r1 {
        return Some(s.z0 + (d - s.r0) * s.rise);
    }
    None
}

// The same as a number: infinite beyond r1.
fn height_over(h: Option<f64>) -> f64
    ensures { result ≡ height_over h }
{
    match h {
        None => 1.0 / 0.0,
        Some(z) => z,
    }
}

// The candidate of corner n at the height z under the surface.
fn under(n: u32, z: f64, h: Option<f64>) -> Option<Contact>
    ensures { result ≡ section_under n z h }
{
    match h {
        None => None,
        Some(d) => Some(Contact {
            height: z - d,
            touch: Touch {
                kind: plane::CORNER,
                which: n,
            },
        }),
    }
}

// A number from which on the square of a distance shows that the distance is beyond the section, so that no distance is taken there.
fn far_of(s: Section) -> f64
    ensures { Clear s result }
{
    let r0 = s.r0;
    let r1 = s.r1;
    if r0 <= r1 {
        return bound::beyond(r1);
    }
    0.0 / 0.0
}

// The contact c with the candidate of vertex n, which is not above vz - low; none where the squares show that the vertex is beyond the section.
fn vertex(
    s: Section,
    low: f64,
    far: f64,
    x: f64,
    y: f64,
    n: u32,
    vx: f64,
    vy: f64,
    vz: f64,
    c: Option<Contact>,
) -> Option<Contact>
    requires { Firm s low × Clear s far }
    ensures { result ≡ offer_of c (section_vertex s x y n vx vy vz) }
{
    if vz - low <= above::limit(c) {
        return c;
    }
    let dx = vx - x;
    let dy = vy - y;
    if dx * dx + dy * dy >= far {
        return c;
    }
    above::offer(c, under(n, vz, profile(s, roots::hypot(dx, dy))))
}

// The contact c with the vertices' candidates.
fn vertices(
    s: Section,
    low: f64,
    far: f64,
    x: f64,
    y: f64,
    t: Triangle,
    c: Option<Contact>,
) -> Option<Contact>
    requires { Firm s low × Clear s far }
    ensures { result ≡ offer_of c (section_vertices s x y t) }
{
    let a = vertex(s, low, far, x, y, 0, t.ax, t.ay, t.az, c);
    let b = vertex(s, low, far, x, y, 1, t.bx, t.by, t.bz, a);
    vertex(s, low, far, x, y, 2, t.cx, t.cy, t.cz, b)
}

// The contact c with the edges' candidates.
fn edges(s: Section, low: f64, x: f64, y: f64, t: Triangle, c: Option<Contact>) -> Option<Contact>
    requires { Firm s low }
    ensures { result ≡ section_edges s x y t c }
{
    let ab = edge(s, low, x, y, cutters::edge_ab(t), c);
    let bc = edge(s, low, x, y, cutters::edge_bc(t), ab);
    edge(s, low, x, y, cutters::edge_ca(t), bc)
}

// The contact c with the candidate of an edge, unless that cannot exceed c.
fn edge(s: Section, low: f64, x: f64, y: f64, e: Edge, c: Option<Contact>) -> Option<Contact>
    requires { Firm s low }
    ensures { result ≡ offer_of c (section_edge s x y e) }
{
    let limit = above::limit(c);
    if low::skips(s, low, e, limit) {
        return c;
    }
    let part = cutters::reached(e, x, y, s.r1);
    above::offer(c, stretch_of(s, low, x, y, e, part, limit))
}

// The bound over an edge's stretch, or one that is as good beside the limit.
fn stretch_of(
    s: Section,
    low: f64,
    x: f64,
    y: f64,
    e: Edge,
    part: Option<Stretch>,
    limit: f64,
) -> Option<Contact>
    requires { Firm s low }
    ensures { AsGood limit result (section_stretch s x y e part) }
{
    let which = e.which;
    match part {
        None => None,
        Some(on) => Some(Contact {
            height: bounded(s, low, x, y, e, on.from, on.to, limit),
            touch: Touch {
                kind: plane::EDGE,
                which,
            },
        }),
    }
}

// The bound between two places of an edge, or one that is as good beside the limit. Where no bound there exceeds the limit there is no search.
fn bounded(s: Section, low: f64, x: f64, y: f64, e: Edge, lo: f64, hi: f64, limit: f64) -> f64
    requires { Firm s low }
    ensures { Alike limit result (golden_max_bound (section_at s x y e) lo hi (lipschitz_of s e)) }
{
    let cap = low::cap_on(s, low, x, y, e, lo, hi);
    let slope = lipschitz(s, e);
    let more = slope * ((hi - lo) * golden::PHI_60);
    if cap + more <= limit {
        return cap + more;
    }
    let best = search(s, low, x, y, e, lo, hi, cap, more, limit);
    golden::bound(best, lo, hi, slope)
}

// How much the tip's height changes at most along an edge.
fn lipschitz(s: Section, e: Edge) -> f64
    ensures { result ≡ lipschitz_of s e }
{
    let ex = e.bx - e.ax;
    let ey = e.by - e.ay;
    let rise = s.rise;
    let steep = numbers::abs(e.bz - e.az);
    steep + rise * roots::root(ex * ex + ey * ey)
}

// The largest tip's height between two places of an edge, or one that is as good beside the limit with `more` added to both: the larger end's, where no place
// exceeds it.
fn search(
    s: Section,
    low: f64,
    x: f64,
    y: f64,
    e: Edge,
    lo: f64,
    hi: f64,
    cap: f64,
    more: f64,
    limit: f64,
) -> f64
    requires { (Firm s low) × (cap ≡ cap_of s low x y e lo hi) }
    ensures { Alike limit (result ⊕ more) (golden_max (section_at s x y e) lo hi 60 ⊕ more) }
{
    let flat = flat_of(s);
    let first = at(s, x, y, e, flat, lo);
    let m = numbers::max(first, at(s, x, y, e, flat, hi));
    if cap <= m {
        return m;
    }
    search_on(s, low, x, y, e, flat, lo, hi, m, more, limit)
}

// A number up to which the square of a distance shows that the distance is within r0, so that no distance is taken there.
fn flat_of(s: Section) -> f64
    ensures { FlatTo s result }
{
    bound::within(s.r0)
}

// The same with the number `flat` of the section, m being the larger end's height. The search is given up once nothing that it can still find exceeds that, or,
// with `more` added, the limit. After its first steps it is followed without distances, as far as that goes.
fn search_on(
    s: Section,
    low: f64,
    x: f64,
    y: f64,
    e: Edge,
    flat: f64,
    lo: f64,
    hi: f64,
    m: f64,
    more: f64,
    limit: f64,
) -> f64
    requires { Begun s low x y e flat lo hi m }
    ensures { Alike limit (result ⊕ more) (golden_max (section_at s x y e) lo hi 60 ⊕ more) }
{
    let mut g = start(s, x, y, e, flat, lo, hi);
    for n in 0..5usize {
        if settled(s, low, x, y, e, m, more, limit, g, n) {
            return m;
        }
        g = step(s, x, y, e, flat, g);
    }
    let some = slide::slid(s, low, x, y, e, flat, lo, hi, Stage { g, n: 5 });
    let from = slide::more(s, low, x, y, e, flat, lo, hi, some);
    search_last(s, low, x, y, e, flat, lo, hi, m, more, limit, from)
}

// The same from a later step on.
fn search_last(
    s: Section,
    low: f64,
    x: f64,
    y: f64,
    e: Edge,
    flat: f64,
    lo: f64,
    hi: f64,
    m: f64,
    more: f64,
    limit: f64,
    from: Stage,
) -> f64
    requires { (Begun s low x y e flat lo hi m) × (from.g ≡ golden_at rises (section_at s x y e) lo hi from.n) × (from.n ≤ 60) }
    ensures { Alike limit (result ⊕ more) (golden_max (section_at s x y e) lo hi 60 ⊕ more) }
{
    let mut g = from.g;
    for n in from.n..60usize {
        if settled(s, low, x, y, e, m, more, limit, g, n) {
            return m;
        }
        g = step(s, x, y, e, flat, g);
    }
    numbers::max(numbers::max(m, g.f1), g.f2)
}

// Whether the search may be given up before step n: no place in the bracket that it has come to exceeds m, or, with `more` added, the limit.
fn settled(
    s: Section,
    low: f64,
    x: f64,
    y: f64,
    e: Edge,
    m: f64,
    more: f64,
    limit: f64,
    g: Golden,
    n: usize,
) -> bool
    ensures { result ≡ true → InnerOf g × Under (cap_of s low x y e g.a g.b) m more limit }
{
    let a = g.a;
    let b = g.b;
    if caps::looks(g, n) {
        let top = low::cap_on(s, low, x, y, e, a, b);
        if top <= m {
            return true;
        }
        return top + more <= limit;
    }
    false
}

// The search's first bracket.
fn start(s: Section, x: f64, y: f64, e: Edge, flat: f64, lo: f64, hi: f64) -> Golden
    requires { FlatTo s flat }
    ensures { result ≡ golden_start (section_at s x y e) lo hi }
{
    let u = golden::lower_point(lo, hi);
    let v = golden::upper_point(lo, hi);
    golden::start(lo, hi, at(s, x, y, e, flat, u), at(s, x, y, e, flat, v))
}

// A step of the search.
fn step(s: Section, x: f64, y: f64, e: Edge, flat: f64, g: Golden) -> Golden
    requires { FlatTo s flat }
    ensures { result ≡ golden_step rises (section_at s x y e) g }
{
    let left = golden::drops_low(g);
    let p = golden::probe(left, g);
    golden::narrowed(left, g, p, at(s, x, y, e, flat, p))
}

// The tip's height over the edge's point at t.
fn at(s: Section, x: f64, y: f64, e: Edge, flat: f64, t: f64) -> f64
    requires { FlatTo s flat }
    ensures { result ≡ section_at s x y e t }
{
    let z = e.az + t * (e.bz - e.az);
    let r1 = s.r1;
    let z0 = s.z0;
    let dx = e.ax + t * (e.bx - e.ax) - x;
    let dy = e.ay + t * (e.by - e.ay) - y;
    if dx * dx + dy * dy <= flat {
        return z - z0;
    }
    let d = numbers::min(roots::hypot(dx, dy), r1);
    z - height_over(profile(s, d))
}

// The candidate of the facet.
pub fn facet(s: Section, x: f64, y: f64, t: Triangle, f: Option<Gradient>) -> Option<Contact>
    ensures { result ≡ section_facet s x y t f }
{
    match f {
        None => None,
        Some(g) => cutters::facet_height(t, rest(s, x, y, g)),
    }
}

// Where the section rests on a plane.
fn rest(s: Section, x: f64, y: f64, g: Gradient) -> Rest
    ensures { result ≡ section_rest s x y g }
{
    let steep = g.steep;
    let drop = s.z0;
    if steep < 1e-15 {
        Rest { x, y, drop }
    } else {
        sloped(s, x, y, g, reach_of(s, steep))
    }
}

// How far from the axis the section rests on a plane that is not level.
fn reach_of(s: Section, steep: f64) -> f64
    ensures { result ≡ reach_of s steep }
{
    if steep <= s.rise { s.r0 } else { s.r1 }
}

// Where the section rests on a plane that is not level.
fn sloped(s: Section, x: f64, y: f64, g: Gradient, reach: f64) -> Rest
    ensures { result ≡ section_sloped s x y g reach }
{
    cutters::rest_at(g, x, y, reach, height_over(profile(s, reach)))
}
