// What the tip's height over a vertex or an edge is at most, since the section's surface is nowhere below z0: candidates that cannot exceed the best
// so far are left out.
ghost use Rattle.std.specs.Prelude.{◌≡◌};
ghost use Rattle.section.specs.Inside.{KeptIf, Firm, low_edge, over_of, cap_of};

use crate::Section;
use cutters::Edge;

// A number that the section's surface is nowhere below: z0, and a NaN, by which nothing is left out, for a section that is not valid.
pub fn low_of(s: Section) -> f64
    ensures { Firm s result }
{
    kept_if(s.z0, crate::valid(s))
}

// z if it may be used, else a NaN.
fn kept_if(z: f64, good: bool) -> f64
    ensures { KeptIf good z result }
{
    if good { z } else { 0.0 / 0.0 }
}

// Whether the bound over any stretch of an edge is at most b.
pub fn skips(s: Section, low: f64, e: Edge, b: f64) -> bool
    ensures { result ≡ low_edge s low e b }
{
    let ex = e.bx - e.ax;
    let ey = e.by - e.ay;
    let rise = s.rise;
    let steep = numbers::abs(e.bz - e.az);
    if caps::tame_rise(e) {
        let most = steep + rise * caps::root_most(ex * ex + ey * ey);
        return caps::high_on(e, 0.0, 1.0) - low + most * golden::PHI_60 <= b;
    }
    false
}

// What the tip's height over an edge from lo to hi is at most.
pub fn cap_on(s: Section, low: f64, x: f64, y: f64, e: Edge, lo: f64, hi: f64) -> f64
    ensures { result ≡ cap_of s low x y e lo hi }
{
    let r1 = s.r1;
    if 0.0 <= low {
        if caps::tame_on(e, x, y, lo, hi) {
            let d = numbers::min(caps::least_on(e, x, y, lo, hi), r1);
            over(s, caps::high_on(e, lo, hi), d)
        } else {
            0.0 / 0.0
        }
    } else {
        0.0 / 0.0
    }
}

// The height z less that of the surface at the distance d.
pub fn over(s: Section, z: f64, d: f64) -> f64
    ensures { result ≡ over_of s z d }
{
    z - crate::height_over(crate::profile(s, d))
}
