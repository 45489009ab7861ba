// A guess of a section's contact, from tips over the facet and over places of the edges. Any number would do, so nothing is promised of it.
use cutters::Edge;
use plane::{Contact, Triangle};
use section::Section;

// 2^-10: how far under the guess the candidates begin.
const UNDER: f64 = 0.0009765625;

const MINUS_ONE: f64 = -1.0;

// Just under the tip over the facet, or over a place of an edge, if higher.
pub fn start_of(t: Triangle, x: f64, y: f64, k: Section) -> f64 {
    let f = height(section::facet(k, x, y, t, cutters::facing_of(t)));
    let u = edge(k, x, y, cutters::edge_ab(t), f);
    let v = edge(k, x, y, cutters::edge_bc(t), u);
    edge(k, x, y, cutters::edge_ca(t), v) - UNDER
}

// The height of a contact.
fn height(c: Option<Contact>) -> f64 {
    match c {
        None => MINUS_ONE / 0.0,
        Some(met) => met.height,
    }
}

// The height b, or the tip over an edge's place nearest to the axis, if higher; none where that is an end.
fn edge(k: Section, x: f64, y: f64, e: Edge, b: f64) -> f64 {
    let ex = e.bx - e.ax;
    let ey = e.by - e.ay;
    let wx = x - e.ax;
    let wy = y - e.ay;
    let square = ex * ex + ey * ey;
    let along = ex * wx + ey * wy;
    if along <= 0.0 {
        return b;
    }
    if square <= along {
        return b;
    }
    let off = ex * wy - ey * wx;
    tip(
        k,
        e.az + along / square * (e.bz - e.az),
        off * off / square,
        b,
    )
}

// The height b, or the tip over a place at the height z, if higher; q is the square of the place's distance from the axis.
fn tip(k: Section, z: f64, q: f64, b: f64) -> f64 {
    if z - k.z0 <= b {
        return b;
    }
    if k.r1 * k.r1 <= q {
        return b;
    }
    numbers::max(
        b,
        z - k.z0 - numbers::max(roots::root(q) - k.r0, 0.0) * k.rise,
    )
}
