// Whether header and tables are the index of a mesh. The header and the boxes are worked out afresh and compared to the bit. The members are counted, and each
// cell's stretch is looked through: its numbers rise and cover the cell. If there are as many as there should be, none is missing.
#![tactic(auto)]

ghost use Rattle.std.specs.Prelude.{true, ◌&&◌, ◌≡◌, ℕ, ◌+◌, ◌*◌, ◌<◌, ◌≤◌, length};
ghost use Rattle.spans.specs.Inside.{AllGood};
ghost use Rattle.rules.specs.Every.{is_from};
ghost use Rattle.refusals.specs.Numbers.{number_of, code_of};
ghost use Rattle.grid.specs.Grid.{cells_in, cover_of};
ghost use Rattle.grid.specs.Boxes.{box_at, boxes_of};
ghost use Rattle.grid.specs.Header.{header_of};
ghost use Rattle.grid.specs.Build.{refusal_of_mesh, refusal_of_grid};
ghost use Rattle.grid.specs.Index.{index_of, BuiltFrom};
ghost use Rattle.grid.specs.Inside.{NearBox, Gridded};
ghost use Rattle.checked.specs.Check.{CheckPromise};
ghost use Rattle.checked.specs.Inside.{Tells, told_as, cells_under, box_covers, Boxed, rises_from, cell_holds, SameTables, SameIndex};

use grid::{Grid, Header};
use plane::Bounds;
use refusals::Refusal;

// Nothing exactly if header and tables are the index of this mesh; else refusal 1, 23 or 7.
pub fn check_index(
    mesh: &[f64],
    h: Header,
    starts: &[u32],
    members: &[u32],
    boxes: &[f64],
) -> Result<(), Refusal>
    ensures { CheckPromise (index_of mesh.now h starts.now members.now boxes.now) (code_of result) }
{
    match grid::refusal_of_mesh(mesh, h.floor, h.r, boxes) {
        Err(r) => Err(told(r)),
        Ok(()) => {
            if is_index(mesh, h, starts, members, boxes) {
                return Ok(());
            }
            Err(Refusal::Index)
        }
    }
}

// How a refusal of the builder is told: 1 and 23 as they are, any other as 7.
#[tactic(auto, unfolding(crate::specs::Inside::told_as, refusals::specs::Numbers::number_of))]
fn told(r: Refusal) -> Refusal
    ensures { number_of result ≡ told_as (number_of r) }
{
    match r {
        Refusal::Length => Refusal::Length,
        Refusal::Boxes => Refusal::Boxes,
        _ => Refusal::Index,
    }
}

// Whether header and tables are the index of a mesh that the builder passes.
fn is_index(mesh: &[f64], h: Header, starts: &[u32], members: &[u32], boxes: &[f64]) -> bool
    requires { refusal_of_mesh mesh.now h.floor h.r boxes.now ≡ 0 }
    ensures { Tells result (BuiltFrom (index_of mesh.now h starts.now members.now boxes.now)) }
{
    let n = mesh.len() / 9;
    let g = grid::grid_of(mesh, n, h.r);
    is_index_under(mesh, n, g, h, starts, members, boxes)
}

// Whether header and tables are what the builder leaves of n triangles under a grid.
fn is_index_under(
    mesh: &[f64],
    n: usize,
    g: Grid,
    h: Header,
    starts: &[u32],
    members: &[u32],
    boxes: &[f64],
) -> bool
    requires n_in_bounds { (n * 9 ≤ length mesh.now) × (length boxes.now ≡ n * 5) × AllGood mesh.now }
    requires gridded { refusal_of_grid g.columns g.rows (length starts.now) ≡ 0 → Gridded mesh.now n g }
    ensures { Tells result (SameIndex n g (index_of mesh.now h starts.now members.now boxes.now)) }
{
    if grid::refusal_of_grid(g.columns, g.rows, starts.len()).is_err() {
        return false;
    }
    if !is_header(mesh, n, g, h) {
        return false;
    }
    if !are_boxes(mesh, n, boxes) {
        return false;
    }
    are_tables(mesh, n, g, starts, members, boxes)
}

// Whether two numbers are the same: a zero is not one of the other sign.
fn same(x: f64, y: f64) -> bool
    ensures { Tells result (x ≡ y) }
{
    if x == y {
        return f64::to_bits(x) == f64::to_bits(y);
    }
    if x != x {
        return y != y;
    }
    false
}

// Whether two pairs of numbers are.
fn same_two(a: f64, b: f64, c: f64, d: f64) -> bool
    ensures { Tells result ((a ≡ c) × (b ≡ d)) }
{
    if same(a, c) {
        return same(b, d);
    }
    false
}

// Whether two boxes are, in all five numbers.
fn same_box(b: Bounds, c: Bounds) -> bool
    ensures { Tells result (b ≡ c) }
{
    if !same_two(b.low_x, b.low_y, c.low_x, c.low_y) {
        return false;
    }
    if !same_two(b.high_x, b.high_y, c.high_x, c.high_y) {
        return false;
    }
    same(b.top, c.top)
}

// Whether a header is the one of n triangles under a grid, with its own floor and r.
fn is_header(mesh: &[f64], n: usize, g: Grid, h: Header) -> bool
    requires { (n * 9 ≤ length mesh.now) × AllGood mesh.now }
    ensures { Tells result (h ≡ header_of mesh.now n g h.floor h.r) }
{
    if !same_counts(n, g, h) {
        return false;
    }
    if !same_two(h.origin_x, h.origin_y, g.x, g.y) {
        return false;
    }
    same_two(h.cell, h.eps, g.size, spans::eps(mesh, n))
}

// Whether a header has these counts: triangles, columns and rows.
fn same_counts(n: usize, g: Grid, h: Header) -> bool
    ensures { Tells result ((h.n ≡ n) × (h.columns ≡ g.columns) × (h.rows ≡ g.rows)) }
{
    if h.n != n {
        return false;
    }
    if h.columns != g.columns {
        return false;
    }
    h.rows == g.rows
}

// Whether a table is the boxes of n triangles.
fn are_boxes(mesh: &[f64], n: usize, boxes: &[f64]) -> bool
    requires { (n * 9 ≤ length mesh.now) × (length boxes.now ≡ n * 5) × AllGood mesh.now }
    ensures { Tells result (boxes.now ≡ boxes_of mesh.now n) }
{
    // by index: triangle i is nine numbers of one table and five of the other
    for i in 0..n {
        if !same_box(grid::box_at(boxes, i), spans::box_of(mesh, i)) {
            return false;
        }
    }
    true
}

// Whether starts and members are those of n triangles under a grid, whose boxes are at hand.
fn are_tables(
    mesh: &[f64],
    n: usize,
    g: Grid,
    starts: &[u32],
    members: &[u32],
    boxes: &[f64],
) -> bool
    requires gridded { Gridded mesh.now n g }
    requires g_in_bounds { (cells_in g + 1 ≤ length starts.now) × (boxes.now ≡ boxes_of mesh.now n) }
    ensures { Tells result (SameTables (cover_of mesh.now g) n (cells_in g) starts.now members.now) }
{
    let t = grid::total(mesh, n, g);
    if grid::refusal_of_members(t, members.len()).is_err() {
        return false;
    }
    if starts[0] != 0 {
        return false;
    }
    if starts[g.rows * g.columns] as usize != t {
        return false;
    }
    cells_hold(n, g, starts, members, boxes)
}

// Whether every cell's stretch holds triangles that cover it, in mesh order.
fn cells_hold(n: usize, g: Grid, starts: &[u32], members: &[u32], boxes: &[f64]) -> bool
    requires boxed { Boxed n g boxes.now }
    requires g_in_bounds { cells_in g + 1 ≤ length starts.now }
    ensures { Tells result ((c : ℕ) → c < cells_in g
        → cell_holds (box_covers boxes.now g) n starts.now members.now c ≡ true) }
{
    // by index: a cell lies between two starts, and its number tells column and row
    for c in 0..g.rows * g.columns {
        if !cell_holds(n, g, starts, members, boxes, c) {
            return false;
        }
    }
    true
}

// Whether the stretch of cell c does.
fn cell_holds(n: usize, g: Grid, starts: &[u32], members: &[u32], boxes: &[f64], c: usize) -> bool
    requires boxed { Boxed n g boxes.now }
    requires c_in_bounds { c + 1 < length starts.now }
    ensures { result ≡ cell_holds (box_covers boxes.now g) n starts.now members.now c }
{
    let a = starts[c] as usize;
    let e = starts[c + 1] as usize;
    if e < a {
        return false;
    }
    if members.len() < e {
        return false;
    }
    rises(n, g, &members[a..e], boxes, c)
}

// Whether numbers rise, are below n, and each is a triangle that covers cell c.
fn rises(n: usize, g: Grid, part: &[u32], boxes: &[f64], c: usize) -> bool
    requires { Boxed n g boxes.now }
    ensures { result ≡ rises_from (λ i. box_covers boxes.now g i c) n 0 part.now }
{
    let x = c % g.columns;
    let y = c / g.columns;
    let mut low: usize = 0;
    for member in part {
        let i = *member as usize;
        if i < low {
            return false;
        }
        if n <= i {
            return false;
        }
        if !covers(g, boxes, i, x, y) {
            return false;
        }
        low = i + 1;
    }
    true
}

// Whether triangle i covers column x of row y, by its box.
fn covers(g: Grid, boxes: &[f64], i: usize, x: usize, y: usize) -> bool
    requires columns_nonzero { (0 < g.columns) × (0 < g.rows) × (5 * i + 5 ≤ length boxes.now) }
    requires near_box { NearBox g (box_at boxes.now i) }
    ensures { result ≡ (is_from (cells_under g (box_at boxes.now i)).left (cells_under g (box_at boxes.now i)).right x
        && is_from (cells_under g (box_at boxes.now i)).bottom (cells_under g (box_at boxes.now i)).top y) }
{
    let b = grid::box_at(boxes, i);
    let s = spans::stretch_of(g.x, g.size, g.columns, b.low_x, b.high_x);
    if !header::is_from(s.first, s.last, x) {
        return false;
    }
    let t = spans::stretch_of(g.y, g.size, g.rows, b.low_y, b.high_y);
    header::is_from(t.first, t.last, y)
}
