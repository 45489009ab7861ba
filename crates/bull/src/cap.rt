// What the tip's height over a vertex or an edge is at most, so that what cannot exceed the best so far is not worked out.
ghost use Rattle.std.specs.Prelude.{◌≡◌};
ghost use Rattle.bull.specs.Inside.{base_of, low_vertex, over_of, cap_of};

use crate::Bull;
use cutters::Edge;

// A number that the cutter's height over its tip is nowhere below.
#[tactic(auto, unfolding(crate::specs::Inside::base_of))]
pub fn base_of(k: Bull) -> f64
    ensures { result ≡ base_of k }
{
    let r = k.r;
    let rc = k.rc;
    if !plane::is_radius(r) {
        return 0.0 / 0.0;
    }
    if !plane::is_radius(rc) {
        return 0.0 / 0.0;
    }
    numbers::min(rc - roots::root(rc * rc), 0.0)
}

// Whether the tip over a vertex at the height z is at most b.
#[tactic(auto, unfolding(crate::specs::Inside::low_vertex))]
pub fn low_vertex(base: f64, z: f64, dx: f64, dy: f64, b: f64) -> bool
    ensures { result ≡ low_vertex base z dx dy b }
{
    z - base <= b && (plane::is_coordinate(dx) && plane::is_coordinate(dy))
}

// What the tip's height over an edge from lo to hi is at most.
#[tactic(auto, unfolding(crate::specs::Inside::cap_of))]
pub fn cap_on(k: Bull, base: f64, e: Edge, lo: f64, hi: f64) -> f64
    ensures { result ≡ cap_of k base e lo hi }
{
    let x = k.x;
    let y = k.y;
    let r = k.r;
    if base <= 0.0 {
        if caps::tame_on(e, x, y, lo, hi) {
            let d = numbers::min(caps::least_on(e, x, y, lo, hi), r);
            over(k, base, caps::high_on(e, lo, hi), d)
        } else {
            0.0 / 0.0
        }
    } else {
        0.0 / 0.0
    }
}

// The height z less the profile at the distance d, or less the least of all within the flat part.
#[tactic(auto, unfolding(crate::specs::Inside::over_of))]
fn over(k: Bull, base: f64, z: f64, d: f64) -> f64
    ensures { result ≡ over_of k base z d }
{
    let r = k.r;
    let rc = k.rc;
    if d - (r - rc) <= 0.0 {
        return z - base;
    }
    z - crate::bull_profile(d, r, rc)
}
