// What C and Rust call of the numbers and of one triangle: include/mandrikelo.h declares these functions. Each hands its arguments to
// the library, whose contract is its own, and asks nothing of the caller.
#![tactic(auto)]

ghost use Rattle.std.specs.Prelude.{◌≡◌};
ghost use Rattle.numbers.specs.Reals.{max_of, min_of, clamp_unit};
ghost use Rattle.roots.specs.Root.{root_of};
ghost use Rattle.numbers.specs.Rounding.{round_down_of, round_up_of};
ghost use Rattle.roots.specs.Hypot.{hypot_of};
ghost use Rattle.numbers.specs.Order.{total_less};
ghost use Rattle.plane.specs.Mesh.{triangle_of};
ghost use Rattle.plane.specs.Distance.{dist2_to_segment, distance_xy};
ghost use Rattle.capsule.specs.Candidates.{max_in_capsule};
ghost use Rattle.bull.specs.Bull.{bull_profile, bull_contact_above};
ghost use Rattle.section.specs.Section.{section_contact};
ghost use Rattle.desk_numbers.specs.Contacts.{contact_left, contact_left_by, section_from};

use bull::Bull;
use plane::Contact;
use section::Section;

mod version;

// The square root, rounded to the nearest f64.
#[unsafe(no_mangle)]
pub extern "C" fn mandrikelo_root(x: f64) -> f64
    ensures { result ≡ root_of x }
{
    roots::root(x)
}

// The largest whole number not above x.
#[unsafe(no_mangle)]
pub extern "C" fn mandrikelo_round_down(x: f64) -> f64
    ensures { result ≡ round_down_of x }
{
    numbers::round_down(x)
}

// The larger of the two.
#[unsafe(no_mangle)]
pub extern "C" fn mandrikelo_max(x: f64, y: f64) -> f64
    ensures { result ≡ max_of x y }
{
    numbers::max(x, y)
}

// The smaller of the two.
#[unsafe(no_mangle)]
pub extern "C" fn mandrikelo_min(x: f64, y: f64) -> f64
    ensures { result ≡ min_of x y }
{
    numbers::min(x, y)
}

// x held to 0..1.
#[unsafe(no_mangle)]
pub extern "C" fn mandrikelo_clamp_unit(x: f64) -> f64
    ensures { result ≡ clamp_unit x }
{
    numbers::clamp_unit(x)
}

// The smallest whole number not below x.
#[unsafe(no_mangle)]
pub extern "C" fn mandrikelo_round_up(x: f64) -> f64
    ensures { result ≡ round_up_of x }
{
    numbers::round_up(x)
}

// The length of (x, y).
#[unsafe(no_mangle)]
pub extern "C" fn mandrikelo_hypot(x: f64, y: f64) -> f64
    ensures { result ≡ hypot_of x y }
{
    roots::hypot(x, y)
}

// Whether x stands before y in the total order.
#[unsafe(no_mangle)]
pub extern "C" fn mandrikelo_total_less(x: f64, y: f64) -> bool
    ensures { result ≡ total_less x y }
{
    numbers::total_less(x, y)
}

// The squared distance in plan from x to the segment from p to q.
#[unsafe(no_mangle)]
pub extern "C" fn mandrikelo_dist2_to_segment(
    x0: f64,
    x1: f64,
    p0: f64,
    p1: f64,
    q0: f64,
    q1: f64,
) -> f64
    ensures { result ≡ dist2_to_segment x0 x1 p0 p1 q0 q1 }
{
    plane::dist2_to_segment(x0, x1, p0, p1, q0, q1)
}

// The distance in plan from (x, y) to the triangle, 0 inside.
#[unsafe(no_mangle)]
pub extern "C" fn mandrikelo_distance_xy(triangle: &[f64; 9], x: f64, y: f64) -> f64
    ensures { result ≡ distance_xy (triangle_of triangle.now 0) x y }
{
    plane::distance_xy(plane::triangle_at(triangle, 0), x, y)
}

// Lays a contact into a bool and two fixed arrays.
fn lay(c: Option<Contact>, height: &mut [f64; 1], touched: &mut [u32; 2]) -> bool
    ensures { contact_left result height.new touched.new ≡ contact_left_by c }
{
    match c {
        None => {
            *height = [0.0];
            *touched = [0, 0];
            false
        }
        Some(met) => {
            *height = [met.height];
            *touched = [met.touch.kind, met.touch.which];
            true
        }
    }
}

// The disk of radius r swept from (px, py) to (qx, qy), and one triangle.
#[unsafe(no_mangle)]
pub extern "C" fn mandrikelo_max_in_capsule(
    triangle: &[f64; 9],
    px: f64,
    py: f64,
    qx: f64,
    qy: f64,
    r: f64,
    eps: f64,
    height: &mut [f64; 1],
    touched: &mut [u32; 2],
) -> bool
    ensures { contact_left result height.new touched.new
        ≡ contact_left_by (max_in_capsule (triangle_of triangle.now 0) px py qx qy r eps) }
{
    lay(
        capsule::max_in_capsule(plane::triangle_at(triangle, 0), px, py, qx, qy, r, eps),
        height,
        touched,
    )
}

// The height of a bull-nose cutter over its tip, at distance d from its axis.
#[unsafe(no_mangle)]
pub extern "C" fn mandrikelo_bull_profile(d: f64, r: f64, rc: f64) -> f64
    ensures { result ≡ bull_profile d r rc }
{
    bull::bull_profile(d, r, rc)
}

// A bull-nose cutter over (px, py) and one triangle; edges that cannot exceed the floor are skipped.
#[unsafe(no_mangle)]
pub extern "C" fn mandrikelo_bull_contact(
    triangle: &[f64; 9],
    px: f64,
    py: f64,
    r: f64,
    rc: f64,
    floor: f64,
    height: &mut [f64; 1],
    touched: &mut [u32; 2],
) -> bool
    ensures { contact_left result height.new touched.new
        ≡ contact_left_by (bull_contact_above (triangle_of triangle.now 0) (record { x = px; y = py; r = r; rc = rc }) floor) }
{
    let k = Bull {
        x: px,
        y: py,
        r: r,
        rc: rc,
    };
    lay(
        bull::bull_contact_above(plane::triangle_at(triangle, 0), k, floor),
        height,
        touched,
    )
}

// A section over (px, py) and one triangle.
#[unsafe(no_mangle)]
pub extern "C" fn mandrikelo_section_contact(
    triangle: &[f64; 9],
    px: f64,
    py: f64,
    section: &[f64; 4],
    height: &mut [f64; 1],
    touched: &mut [u32; 2],
) -> bool
    ensures { contact_left result height.new touched.new
        ≡ contact_left_by (section_contact (triangle_of triangle.now 0) px py (section_from section.now)) }
{
    let s = Section {
        z0: section[0],
        r0: section[1],
        r1: section[2],
        rise: section[3],
    };
    lay(
        section::section_contact(plane::triangle_at(triangle, 0), px, py, s),
        height,
        touched,
    )
}
