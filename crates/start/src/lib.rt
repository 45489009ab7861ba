// Where the walks of a level begin: just under it instead of at the floor, where no sample and no piece is decided otherwise, so that triangles that lie
// lower are left out without a contact.
#![tactic(auto)]

ghost use Rattle.std.specs.Prelude.{true, ◌≡◌, ℕ, ◌+◌, ◌*◌, ◌≤◌, ◌<◌, length, List};
ghost use Rattle.numbers.specs.Reals.{◌⊖◌};
ghost use Rattle.grid.specs.Index.{index_of};
ghost use Rattle.probe.specs.Probe.{height_under};
ghost use Rattle.tops.specs.Inside.{margin};
ghost use Rattle.start.specs.Inside.{Apart, UnderLevel, Begins, with_floor, Serves};

use grid::Header;
use probe::Aim;

// A look over a mesh with this many times as many triangles as a level has samples costs more than it saves.
const FEW: usize = 256;

// The header with which the heights of a level's rows are asked: its floor is raised to just under the level where that decides nothing otherwise, and
// else as it was. The cuts lie at z. A level of few samples, so many rows of so many each, is asked from the floor, so that small levels of a large part
// do not each look over the whole of it.
pub fn header_for(
    mesh: &[f64],
    h: Header,
    boxes: &[f64],
    a: Aim,
    z: f64,
    rows: usize,
    samples: usize,
) -> Header
    requires { (length mesh.now ≡ h.n * 9) × (length boxes.now ≡ h.n * 5) × (h.n ≤ 65536) }
    ensures { (result ≡ with_floor h result.floor)
        × ((starts members : List ℕ) → Serves (height_under (index_of mesh.now h starts members boxes.now))
        (height_under (index_of mesh.now result starts members boxes.now)) a z) }
{
    if samples == 0 {
        return h;
    }
    if rows < h.n / FEW / samples {
        return h;
    }
    let below = a.level - a.level_tolerance;
    let mut gap = tops::MARGIN;
    for k in 0..8usize {
        if may_begin(mesh, h, boxes, a, z, below - gap) {
            return with_floor(h, below - gap);
        }
        gap = gap + gap;
    }
    h
}

// The header with another floor.
fn with_floor(h: Header, floor: f64) -> Header
    ensures { result ≡ with_floor h floor }
{
    Header {
        n: h.n,
        origin_x: h.origin_x,
        origin_y: h.origin_y,
        cell: h.cell,
        columns: h.columns,
        rows: h.rows,
        floor,
        eps: h.eps,
        r: h.r,
    }
}

// Whether the walks may begin at `from`; a false says nothing.
fn may_begin(mesh: &[f64], h: Header, boxes: &[f64], a: Aim, z: f64, from: f64) -> bool
    requires { (length mesh.now ≡ h.n * 9) × (length boxes.now ≡ h.n * 5) × (h.n ≤ 65536) }
    ensures { result ≡ true → Begins h.floor a z from × ((i : ℕ) → Apart mesh.now boxes.now from i) }
{
    if begins(h.floor, a, z, from) {
        return are_apart(mesh, boxes, h.n, from);
    }
    false
}

// Whether `from` is not under the floor, off the level, and clear; a false says nothing.
fn begins(floor: f64, a: Aim, z: f64, from: f64) -> bool
    ensures { result ≡ true → Begins floor a z from }
{
    if !is_under(a.level, a.level_tolerance, from) {
        return false;
    }
    if !(from <= z + a.tolerance) {
        return false;
    }
    if !(floor <= from) {
        return false;
    }
    tops::is_start(from)
}

// Whether nothing that is at most `from` is within the tolerance of a level; a false says nothing.
fn is_under(level: f64, tolerance: f64, from: f64) -> bool
    ensures { result ≡ true → UnderLevel level tolerance from }
{
    let d = -(from - level);
    if d > tolerance {
        return d <= 3e6;
    }
    false
}

// Whether each of n triangles has its top above `from`, or all its corners a margin under it.
fn are_apart(mesh: &[f64], boxes: &[f64], n: usize, from: f64) -> bool
    requires { (length mesh.now ≡ n * 9) × (length boxes.now ≡ n * 5) × (n ≤ 65536) }
    ensures { result ≡ true → (i : ℕ) → Apart mesh.now boxes.now from i }
{
    let low = from - tops::MARGIN;
    for i in 0..n {
        if !is_apart(mesh, boxes, i, low, from) {
            return false;
        }
    }
    true
}

// The same of triangle i.
fn is_apart(mesh: &[f64], boxes: &[f64], i: usize, low: f64, from: f64) -> bool
    requires { (9 * i + 9 ≤ length mesh.now) × (5 * i + 5 ≤ length boxes.now) × (low ≡ from ⊖ margin) }
    ensures { result ≡ true → Apart mesh.now boxes.now from i }
{
    let b = grid::box_at(boxes, i);
    if b.top <= from {
        return tops::lies_low(low, plane::triangle_at(mesh, i));
    }
    true
}
