// What refusal 7 tests of a header and its tables. These functions read and never write.
ghost use Rattle.std.specs.Prelude.{◌≡◌, ◌+◌, ◌*◌, ◌≤◌, ◌<◌, length};
ghost use Rattle.rules.specs.Every.{is_from, each};
ghost use Rattle.query.specs.Usable.{cell_usable, row_usable, cells_usable};
ghost use Rattle.um.specs.Build.{is_power, in_ranges};
ghost use Rattle.setup.specs.Answer.{is_marked, head_usable, triangle_usable, member_usable};
ghost use Rattle.setup.specs.Inside.{counts_in, places_in};

use query::Patch;
use um::Header;

// Whether the mesh is nine numbers for each mark, and not too many.
pub fn is_marked(mesh: &[i32], marks: &[u32]) -> bool
    ensures { result ≡ is_marked mesh.now marks.now }
{
    let n = marks.len();
    n <= rules::MOST && mesh.len() == n * 9
}

// Whether the header is in its ranges, its n is the mesh's, and starts has an entry for each cell and one more.
pub fn head_usable(mesh: &[i32], h: Header, starts: &[u32]) -> bool
    ensures { result ≡ head_usable mesh.now h starts.now }
{
    let n = h.n;
    let columns = h.columns;
    let rows = h.rows;
    in_ranges(h) && (mesh.len() == n * 9 && rows * columns + 1 <= starts.len())
}

// Whether a header is in its ranges.
fn in_ranges(h: Header) -> bool
    ensures { result ≡ in_ranges h }
{
    let n = h.n;
    let columns = h.columns;
    let rows = h.rows;
    let cell = h.cell;
    is_from(1, rules::MOST, n)
        && (places_in(h.x, h.y, h.floor, h.r) && (counts_in(columns, rows) && is_power(cell)))
}

// Whether k is one of the numbers from a to e.
fn is_from(a: usize, e: usize, k: usize) -> bool
    ensures { result ≡ is_from a e k }
{
    a <= k && k <= e
}

// Whether an origin, a floor and a radius are in their ranges.
fn places_in(x: u64, y: u64, floor: u64, r: u64) -> bool
    ensures { result ≡ places_in x y floor r }
{
    micro::is_coordinate(x)
        && (micro::is_coordinate(y) && (micro::is_coordinate(floor) && micro::is_radius(r)))
}

// Whether a grid has at least one cell, and columns, rows and cells are within refusal 5.
fn counts_in(columns: usize, rows: usize) -> bool
    ensures { result ≡ counts_in columns rows }
{
    is_from(1, rules::MOST, columns)
        && (is_from(1, rules::MOST, rows) && is_from(1, rules::MOST_CELLS, rows * columns))
}

// Whether a cell is a power of two from 1 to 2^31.
fn is_power(cell: u64) -> bool
    ensures { result ≡ is_power cell }
{
    let mut power: u64 = 1;
    for k in 0..32usize {
        if power == cell {
            return true;
        }
        power = power * 2;
    }
    false
}

// Whether no coordinate of triangle i is one that 4 would refuse.
fn triangle_usable(mesh: &[i32], i: usize) -> bool
    requires { 9 * i + 9 ≤ length mesh.now }
    ensures { result ≡ triangle_usable mesh.now i }
{
    for k in 9 * i..9 * i + 9 {
        if !micro::is_coordinate(micro::number_at(mesh, k)) {
            return false;
        }
    }
    true
}

// Whether member i of a question's cells can be looked at.
fn member_usable(mesh: &[i32], n: usize, marks: &[u32], stamp: u32, i: usize) -> bool
    requires { (length mesh.now ≡ n * 9) × (length marks.now ≡ n) }
    ensures { result ≡ member_usable mesh.now n marks.now stamp i }
{
    i < n && (triangle_usable(mesh, i) && marks[i] <= stamp)
}

// Whether each number of one cell can be looked at.
fn members_usable(mesh: &[i32], n: usize, marks: &[u32], stamp: u32, part: &[u32]) -> bool
    requires { (length mesh.now ≡ n * 9) × (length marks.now ≡ n) }
    ensures { result ≡ each (member_usable mesh.now n marks.now stamp) part.now }
{
    for j in 0..part.len() {
        if !member_usable(mesh, n, marks, stamp, part[j] as usize) {
            return false;
        }
    }
    true
}

// Whether the stretch of cell c lies in the member table, and each of its numbers can be looked at.
fn cell_usable(
    mesh: &[i32],
    n: usize,
    starts: &[u32],
    members: &[u32],
    marks: &[u32],
    stamp: u32,
    c: usize,
) -> bool
    requires { (length mesh.now ≡ n * 9) × (length marks.now ≡ n) × (c + 1 < length starts.now) }
    ensures { result
        ≡ cell_usable (member_usable mesh.now n marks.now stamp) starts.now members.now c }
{
    let a = starts[c] as usize;
    let e = starts[c + 1] as usize;
    a <= e && (e <= members.len() && members_usable(mesh, n, marks, stamp, &members[a..e]))
}

// The same of columns x0 up to x1 of row y.
fn row_usable(
    mesh: &[i32],
    n: usize,
    starts: &[u32],
    members: &[u32],
    marks: &[u32],
    stamp: u32,
    columns: usize,
    x0: usize,
    x1: usize,
    y: usize,
) -> bool
    requires { (length mesh.now ≡ n * 9) × (length marks.now ≡ n) × (y * columns + x1 < length starts.now) }
    ensures { result
        ≡ row_usable (member_usable mesh.now n marks.now stamp) starts.now members.now columns x0 x1 y }
{
    for x in x0..x1 {
        if !cell_usable(mesh, n, starts, members, marks, stamp, y * columns + x) {
            return false;
        }
    }
    true
}

// The same of each of a question's cells.
pub fn cells_usable(
    mesh: &[i32],
    n: usize,
    starts: &[u32],
    members: &[u32],
    marks: &[u32],
    stamp: u32,
    columns: usize,
    p: Patch,
) -> bool
    requires { (length mesh.now ≡ n * 9) × (length marks.now ≡ n) × (p.x1 ≤ columns) × (p.y1 * columns < length starts.now) }
    ensures { result
        ≡ cells_usable (member_usable mesh.now n marks.now stamp) starts.now members.now columns p }
{
    let x0 = p.x0;
    let x1 = p.x1;
    let y0 = p.y0;
    let y1 = p.y1;
    for y in y0..y1 {
        if !row_usable(mesh, n, starts, members, marks, stamp, columns, x0, x1, y) {
            return false;
        }
    }
    true
}
