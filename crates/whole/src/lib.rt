// What refusal 7 tests of the plan: every cell of the grid and every triangle of the mesh, and no mark.
#![tactic(auto)]

ghost use Rattle.std.specs.Prelude.{◌≡◌, ◌+◌, ◌*◌, ◌/◌, ◌<◌, ltb, length};
ghost use Rattle.grid.specs.Index.{index_of};
ghost use Rattle.rules.specs.Every.{every, each};
ghost use Rattle.query.specs.Usable.{triangle_usable, cell_usable, usable_whole};

use grid::Header;

// Whether header and tables can be used for any question over the mesh.
pub fn usable_whole(mesh: &[f64], h: Header, starts: &[u32], members: &[u32], boxes: &[f64]) -> bool
    requires { length boxes.now ≡ length mesh.now / 9 * 5 }
    ensures { result ≡ usable_whole (index_of mesh.now h starts.now members.now boxes.now) }
{
    let n = h.n;
    let columns = h.columns;
    let rows = h.rows;
    header::head_usable(mesh, h, starts)
        && (triangles_usable(mesh, boxes, n) && cells_below(starts, members, n, rows * columns))
}

// Whether no number of the first n triangles and of their boxes is one that 4 would refuse.
fn triangles_usable(mesh: &[f64], boxes: &[f64], n: usize) -> bool
    requires { (length mesh.now ≡ n * 9) × (length boxes.now ≡ n * 5) }
    ensures { result ≡ every (triangle_usable mesh.now boxes.now) 0 n }
{
    for i in 0..n {
        if !query::triangle_usable(mesh, boxes, i) {
            return false;
        }
    }
    true
}

// Whether the stretches of all cells lie in the member table, with numbers below n.
fn cells_below(starts: &[u32], members: &[u32], n: usize, cells: usize) -> bool
    requires { cells < length starts.now }
    ensures { result ≡ every (cell_usable (λ i. ltb i n) starts.now members.now) 0 cells }
{
    for c in 0..cells {
        if !cell_below(starts, members, n, c) {
            return false;
        }
    }
    true
}

// The same of cell c.
fn cell_below(starts: &[u32], members: &[u32], n: usize, c: usize) -> bool
    requires { c + 1 < length starts.now }
    ensures { result ≡ cell_usable (λ i. ltb i n) starts.now members.now c }
{
    let a = starts[c] as usize;
    let e = starts[c + 1] as usize;
    a <= e && (e <= members.len() && members_below(&members[a..e], n))
}

// Whether each number of a cell is below n.
fn members_below(part: &[u32], n: usize) -> bool
    ensures { result ≡ each (λ i. ltb i n) part.now }
{
    for i in part {
        if *i as usize >= n {
            return false;
        }
    }
    true
}
