// Where a mesh lies, how large the cells over it are, and which of them a stretch of an axis covers.
#![tactic(auto)]

ghost use Rattle.std.specs.Prelude.{◌≡◌, ◌+◌, ◌-◌, ◌*◌, ◌^◌, ◌<◌, ◌≤◌, min, true, false, T, length, is_nan};
ghost use Rattle.spans.specs.Mesh.{first_bad, box_of, widened, extent_of, farther, farthest_of, scale_of, eps_of};
ghost use Rattle.std.specs.Float.Ieee.{le};
ghost use Rattle.numbers.specs.Reals.{f0, max_of, min_of, abs_of};
ghost use Rattle.plane.specs.Mesh.{lowest, highest, bounds_of};
ghost use Rattle.spans.specs.Inside.{Good, AllGood, Corners, Ends, not_negative, Near};
ghost use Rattle.spans.specs.Axis.{span_of, size_of, cell_at, cells_along, stretch_of};
ghost use Rattle.numbers.specs.Rounding.{truncated};

// 2^52: from there on to 2^53 a float has no fraction.
const SHIFT: f64 = 4503599627370496.0;

// The extremes of triangles: their x lie from left to right, their y from bottom to top.
#[derive(Clone, Copy)]
pub struct Extent {
    pub left: f64,
    pub bottom: f64,
    pub right: f64,
    pub top: f64,
}

// The first and the last cell of a stretch of an axis.
#[derive(Clone, Copy)]
pub struct Stretch {
    pub first: usize,
    pub last: usize,
}

// The first number that is no coordinate.
#[tactic(auto, unfolding(crate::specs::Mesh::first_bad))]
pub fn first_bad(mesh: &[f64]) -> Option<usize>
    ensures { result ≡ first_bad mesh.now }
{
    mesh.iter().position(|x| !plane::is_coordinate(*x))
}

// The smaller of two numbers, the first of which is no NaN.
fn lower(x: f64, y: f64) -> f64
    requires { is_nan x ≡ false }
    ensures { result ≡ min_of x y }
{
    if y < x { y } else { x }
}

// The larger of two numbers, the first of which is no NaN.
fn higher(x: f64, y: f64) -> f64
    requires { is_nan x ≡ false }
    ensures { result ≡ max_of x y }
{
    if x < y { y } else { x }
}

// The smallest of three coordinates.
fn low(a: f64, b: f64, c: f64) -> f64
    requires { Good a × Good b }
    ensures { result ≡ lowest a b c }
{
    lower(lower(a, b), c)
}

// The largest of three coordinates.
fn high(a: f64, b: f64, c: f64) -> f64
    requires { Good a × Good b }
    ensures { result ≡ highest a b c }
{
    higher(higher(a, b), c)
}

// The box of a triangle.
fn bounds(t: plane::Triangle) -> plane::Bounds
    requires { Corners t }
    ensures { result ≡ bounds_of t }
{
    plane::Bounds {
        low_x: low(t.ax, t.bx, t.cx),
        low_y: low(t.ay, t.by, t.cy),
        high_x: high(t.ax, t.bx, t.cx),
        high_y: high(t.ay, t.by, t.cy),
        top: high(t.az, t.bz, t.cz),
    }
}

// The box of triangle i.
pub fn box_of(mesh: &[f64], i: usize) -> plane::Bounds
    requires i_in_bounds { 9 * i + 9 ≤ length mesh.now }
    requires all_good { AllGood mesh.now }
    ensures { result ≡ box_of mesh.now i }
{
    bounds(plane::triangle_at(mesh, i))
}

// The extremes with those of one box more.
fn widen(e: Extent, b: plane::Bounds) -> Extent
    requires { Ends e }
    ensures { result ≡ widened e b }
{
    Extent {
        left: lower(e.left, b.low_x),
        bottom: lower(e.bottom, b.low_y),
        right: higher(e.right, b.high_x),
        top: higher(e.top, b.high_y),
    }
}

// The extremes of the first n triangles.
pub fn extent_of(mesh: &[f64], n: usize) -> Extent
    requires n_in_bounds { n * 9 ≤ length mesh.now }
    requires all_good { AllGood mesh.now }
    ensures { result ≡ extent_of mesh.now n }
{
    let mut e = Extent {
        left: 1.0 / 0.0,
        bottom: 1.0 / 0.0,
        right: -1.0 / 0.0,
        top: -1.0 / 0.0,
    };
    // by index: triangle i is nine numbers of the mesh
    for i in 0..n {
        e = widen(e, box_of(mesh, i));
    }
    e
}

// The larger of m and the magnitude of x: m, x or -x.
fn beyond(m: f64, x: f64) -> f64
    requires { (not_negative m ≡ true) × Good x }
    ensures { result ≡ max_of m (abs_of x) }
{
    higher(higher(m, x), -x)
}

// The larger of m and the magnitudes of a corner's numbers.
fn far(m: f64, x: f64, y: f64, z: f64) -> f64
    requires { (not_negative m ≡ true) × Good x × Good y × Good z }
    ensures { result ≡ farther m x y z }
{
    beyond(beyond(beyond(m, x), y), z)
}

// The largest magnitude of a triangle's numbers.
fn farthest(t: plane::Triangle) -> f64
    requires { Corners t }
    ensures { result ≡ farthest_of t }
{
    let a = far(0.0, t.ax, t.ay, t.az);
    let b = far(a, t.bx, t.by, t.bz);
    far(b, t.cx, t.cy, t.cz)
}

// The scale of the first n triangles.
fn scale(mesh: &[f64], n: usize) -> f64
    requires n_in_bounds { n * 9 ≤ length mesh.now }
    requires all_good { AllGood mesh.now }
    ensures { result ≡ scale_of mesh.now n }
{
    let mut s = 1.0;
    // by index: triangle i is nine numbers of the mesh
    for i in 0..n {
        s = numbers::max(s, farthest(plane::triangle_at(mesh, i)));
    }
    s
}

// The eps of the first n triangles.
pub fn eps(mesh: &[f64], n: usize) -> f64
    requires n_in_bounds { n * 9 ≤ length mesh.now }
    requires all_good { AllGood mesh.now }
    ensures { result ≡ eps_of mesh.now n }
{
    1e-12 * numbers::max(scale(mesh, n), 1.0)
}

// The larger extent, at least r.
pub fn span(e: Extent, r: f64) -> f64
    ensures { result ≡ span_of e r }
{
    numbers::max(numbers::max(e.right - e.left, e.top - e.bottom), r)
}

// The size of a cell for n triangles over such a span.
pub fn size(n: usize, span: f64, r: f64) -> f64
    ensures { result ≡ size_of n span r }
{
    let root = roots::root(std::num::nearest_u64_to_f64(n as u64));
    let share = span / numbers::max(root, 1.0);
    numbers::max(numbers::max(share, r / 4.0), 1e-6)
}

// The same of an x from 0 on that is not too large: n is the whole number nearest to x, which is x without its fraction or one more.
fn whole(x: f64) -> u64
    requires { T (le f0 x) × (truncated x < 65536) }
    ensures { result ≡ truncated x }
{
    let n = (x + SHIFT) - SHIFT;
    let k = n as u32;
    if x < n {
        return (k - 1) as u64;
    }
    k as u64
}

// The cell that x lies in.
fn cell_at(lo: f64, size: f64, x: f64) -> u64
    requires { Near lo size x }
    ensures { result ≡ cell_at lo size x }
{
    whole((x - lo) / size)
}

// The cells on an axis.
pub fn cells_along(lo: f64, hi: f64, size: f64) -> usize
    requires { cells_along lo hi size < 2 ^ 64 }
    ensures { result ≡ cells_along lo hi size }
{
    numbers::cut(numbers::round_down((hi - lo) / size)) as usize + 1
}

// A cell's number, held to the last of so many.
fn held(k: u64, count: usize) -> usize
    requires { 0 < count }
    ensures { result ≡ min k (count - 1) }
{
    let last = count - 1;
    if k < last as u64 { k as usize } else { last }
}

// The cells from low to high on an axis of so many cells.
pub fn stretch_of(lo: f64, size: f64, count: usize, low: f64, high: f64) -> Stretch
    requires { (0 < count) × Near lo size low × Near lo size high }
    ensures { result ≡ stretch_of lo size count low high }
{
    let first = cell_at(lo, size, low);
    let last = cell_at(lo, size, high);
    Stretch {
        first: first as usize,
        last: held(last, count),
    }
}
