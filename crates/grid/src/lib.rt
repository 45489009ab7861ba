// The index of a mesh: a grid over it, and for each cell the triangles that cover it, in two lent tables; and the box of each triangle in a third.
#![tactic(auto)]

ghost use Rattle.std.specs.Prelude.{◌≡◌, ◌+◌, ◌*◌, ◌/◌, ◌^◌, ◌<◌, ◌≤◌, length};
ghost use Rattle.spans.specs.Mesh.{box_of};
ghost use Rattle.spans.specs.Inside.{AllGood};
ghost use Rattle.cells.specs.Cover.{starts_of, members_table};
ghost use Rattle.cells.specs.Inside.{Room, CountedAll, Ready, Filled, Fits};
ghost use Rattle.grid.specs.Grid.{triangles_in, grid_of, cells_in, cells_of, cover_of, total_of};
ghost use Rattle.grid.specs.Header.{header_of};
ghost use Rattle.grid.specs.Boxes.{box_at, is_boxed, boxes_of};
ghost use Rattle.refusals.specs.Numbers.{code_of, told_in};
ghost use Rattle.grid.specs.Build.{told, told_with, refusal_of_numbers, refusal_of_mesh, refusal_of_grid};
ghost use Rattle.grid.specs.Build.{refusal_of_members, outcome, filled_of, gridded, build_of};
ghost use Rattle.grid.specs.Index.{index_of, BuildPromise};
ghost use Rattle.grid.specs.Inside.{NearBox, Gridded};

use refusals::Refusal;

// Where a grid begins, how large its cells are, and how many there are.
#[derive(Clone, Copy)]
pub struct Grid {
    pub x: f64,
    pub y: f64,
    pub size: f64,
    pub columns: usize,
    pub rows: usize,
}

// What an index records of its mesh and its grid.
#[derive(Clone, Copy)]
pub struct Header {
    pub n: usize,
    pub origin_x: f64,
    pub origin_y: f64,
    pub cell: f64,
    pub columns: usize,
    pub rows: usize,
    pub floor: f64,
    pub eps: f64,
    pub r: f64,
}

// The index of a mesh: its header; starts, members and boxes hold its tables, and entries that the first two do not need stay. A refused call changes none; 4
// tells which number of the mesh came first.
pub fn build(
    mesh: &[f64],
    floor: f64,
    r: f64,
    starts: &mut [u32],
    members: &mut [u32],
    boxes: &mut [f64],
) -> Result<Header, Refusal>
    ensures boxes_after { outcome (told result) starts.new members.new boxes.new
        ≡ build_of mesh.now floor r starts.old members.old boxes.old }
    ensures build_promise { BuildPromise
        (index_of mesh.now (told result).header starts.new members.new boxes.new) (told result).refusal }
{
    refusal_of_mesh(mesh, floor, r, boxes)?;
    build_grid(mesh, floor, r, starts, members, boxes)
}

// The box of triangle i, as the table has it.
pub fn box_at(boxes: &[f64], i: usize) -> plane::Bounds
    requires { 5 * i + 5 ≤ length boxes.now }
    ensures { result ≡ box_at boxes.now i }
{
    let k = 5 * i;
    plane::Bounds {
        low_x: boxes[k],
        low_y: boxes[k + 1],
        high_x: boxes[k + 2],
        high_y: boxes[k + 3],
        top: boxes[k + 4],
    }
}

// Whether a table is five numbers for each triangle of a mesh.
pub fn is_boxed(mesh: &[f64], boxes: &[f64]) -> bool
    ensures { result ≡ is_boxed mesh.now boxes.now }
{
    boxes.len() == mesh.len() / 9 * 5
}

// Refusals 1, 23, 3, 2 and 4.
#[tactic(auto, using(rules::proofs::Ladder::ladder), unfolding(crate::specs::Build::refusal_of_mesh, crate::specs::Build::told_with, refusals::specs::Numbers::code_of, refusals::specs::Numbers::told_in, refusals::specs::Numbers::number_of, refusals::specs::Numbers::told_of))]
pub fn refusal_of_mesh(mesh: &[f64], floor: f64, r: f64, boxes: &[f64]) -> Result<(), Refusal>
    ensures code { code_of result ≡ refusal_of_mesh mesh.now floor r boxes.now }
    ensures place { told_in result ≡ told_with (code_of result) mesh.now }
{
    if mesh.len() % 9 != 0 {
        return Err(Refusal::Length);
    }
    let n = mesh.len() / 9;
    if rules::MOST < n {
        return Err(Refusal::Length);
    }
    if !is_boxed(mesh, boxes) {
        return Err(Refusal::Boxes);
    }
    if n == 0 {
        return Err(Refusal::Empty);
    }
    refusal_of_numbers(mesh, floor, r)
}

// Refusals 2 and 4.
#[tactic(auto, using(rules::proofs::Ladder::ladder, crate::proofs::Accepting::place_fits), unfolding(crate::specs::Build::refusal_of_numbers, crate::specs::Build::told_with, crate::specs::Build::is_nowhere, crate::specs::Build::place_of, refusals::specs::Numbers::code_of, refusals::specs::Numbers::told_in, refusals::specs::Numbers::number_of, refusals::specs::Numbers::told_of))]
pub fn refusal_of_numbers(mesh: &[f64], floor: f64, r: f64) -> Result<(), Refusal>
    requires { length mesh.now ≤ 589824 }
    ensures code { code_of result ≡ refusal_of_numbers mesh.now floor r }
    ensures place { told_in result ≡ told_with (code_of result) mesh.now }
{
    if !plane::is_coordinate(floor) {
        return Err(Refusal::Number);
    }
    if !plane::is_radius(r) {
        return Err(Refusal::Number);
    }
    match spans::first_bad(mesh) {
        None => Ok(()),
        Some(k) => Err(Refusal::Coordinate(k as u32)),
    }
}

// The grid over the first n triangles.
pub fn grid_of(mesh: &[f64], n: usize, r: f64) -> Grid
    requires n_in_bounds { n * 9 ≤ length mesh.now }
    requires all_good { AllGood mesh.now }
    requires r_bound { ((grid_of mesh.now n r).columns < 2 ^ 64) × ((grid_of mesh.now n r).rows < 2 ^ 64) }
    ensures { result ≡ grid_of mesh.now n r }
{
    let e = spans::extent_of(mesh, n);
    let size = spans::size(n, spans::span(e, r), r);
    let columns = spans::cells_along(e.left, e.right, size);
    let rows = spans::cells_along(e.bottom, e.top, size);
    Grid {
        x: e.left,
        y: e.bottom,
        size,
        columns,
        rows,
    }
}

// Refusal 5.
#[tactic(auto, using(rules::proofs::Ladder::ladder), unfolding(crate::specs::Build::refusal_of_grid, refusals::specs::Numbers::code_of, refusals::specs::Numbers::told_in, refusals::specs::Numbers::number_of, refusals::specs::Numbers::told_of))]
pub fn refusal_of_grid(columns: usize, rows: usize, lent: usize) -> Result<(), Refusal>
    ensures code { code_of result ≡ refusal_of_grid columns rows lent }
    ensures place { told_in result ≡ 0 }
{
    if rules::MOST < columns {
        return Err(Refusal::Starts);
    }
    if rules::MOST < rows {
        return Err(Refusal::Starts);
    }
    let cells = rows * columns;
    if rules::MOST_CELLS < cells {
        return Err(Refusal::Starts);
    }
    if lent < cells + 1 {
        return Err(Refusal::Starts);
    }
    Ok(())
}

// Refusal 6.
#[tactic(auto, using(rules::proofs::Ladder::ladder), unfolding(crate::specs::Build::refusal_of_members, refusals::specs::Numbers::code_of, refusals::specs::Numbers::told_in, refusals::specs::Numbers::number_of, refusals::specs::Numbers::told_of))]
pub fn refusal_of_members(k: usize, lent: usize) -> Result<(), Refusal>
    ensures code { code_of result ≡ refusal_of_members k lent }
    ensures place { told_in result ≡ 0 }
{
    if 16777216 < k {
        return Err(Refusal::Members);
    }
    if lent < k {
        return Err(Refusal::Members);
    }
    Ok(())
}

// The index of a mesh that refusals 1, 23, 3, 2 and 4 pass.
fn build_grid(
    mesh: &[f64],
    floor: f64,
    r: f64,
    starts: &mut [u32],
    members: &mut [u32],
    boxes: &mut [f64],
) -> Result<Header, Refusal>
    requires { refusal_of_mesh mesh.now floor r boxes.old ≡ 0 }
    ensures { outcome (told result) starts.new members.new boxes.new
        ≡ gridded mesh.now (triangles_in mesh.now) (grid_of mesh.now (triangles_in mesh.now) r) floor r
        starts.old members.old boxes.old }
{
    let n = mesh.len() / 9;
    let g = grid_of(mesh, n, r);
    refusal_of_grid(g.columns, g.rows, starts.len())?;
    fill_grid(mesh, n, g, floor, r, starts, members, boxes)
}

// The tables of a grid, or refusal 6.
fn fill_grid(
    mesh: &[f64],
    n: usize,
    g: Grid,
    floor: f64,
    r: f64,
    starts: &mut [u32],
    members: &mut [u32],
    boxes: &mut [f64],
) -> Result<Header, Refusal>
    requires gridded { Gridded mesh.now n g }
    requires g_in_bounds { (cells_in g + 1 ≤ length starts.old) × (length boxes.old ≡ n * 5) }
    ensures { outcome (told result) starts.new members.new boxes.new
        ≡ filled_of mesh.now n g floor r starts.old members.old boxes.old }
{
    refusal_of_members(total(mesh, n, g), members.len())?;
    tables(mesh, n, g, starts, members);
    fill_boxes(mesh, n, boxes);
    Ok(header_of(mesh, n, g, floor, r))
}

// The box of each of n triangles, put into the table.
fn fill_boxes(mesh: &[f64], n: usize, boxes: &mut [f64])
    requires { (n * 9 ≤ length mesh.now) × (length boxes.old ≡ n * 5) × AllGood mesh.now }
    ensures { boxes.new ≡ boxes_of mesh.now n }
{
    // by index: triangle i is nine numbers of one table and five of the other
    for i in 0..n {
        let b = spans::box_of(mesh, i);
        fives::put(boxes, i, b.low_x, b.low_y, b.high_x, b.high_y, b.top);
    }
}

// What is recorded of n triangles under a grid.
fn header_of(mesh: &[f64], n: usize, g: Grid, floor: f64, r: f64) -> Header
    requires n_in_bounds { n * 9 ≤ length mesh.now }
    requires all_good { AllGood mesh.now }
    ensures { result ≡ header_of mesh.now n g floor r }
{
    let eps = spans::eps(mesh, n);
    Header {
        n,
        origin_x: g.x,
        origin_y: g.y,
        cell: g.size,
        columns: g.columns,
        rows: g.rows,
        floor,
        eps,
        r,
    }
}

// The cells of triangle i.
fn cells_of(mesh: &[f64], g: Grid, i: usize) -> cells::Cells
    requires i_in_bounds { (i * 9 + 9 ≤ length mesh.now) × (0 < g.columns) × (0 < g.rows) }
    requires all_good { AllGood mesh.now }
    requires near_box { NearBox g (box_of mesh.now i) }
    ensures { result ≡ cells_of mesh.now g i }
{
    let b = spans::box_of(mesh, i);
    let x = spans::stretch_of(g.x, g.size, g.columns, b.low_x, b.high_x);
    let y = spans::stretch_of(g.y, g.size, g.rows, b.low_y, b.high_y);
    cells::Cells {
        left: x.first,
        right: x.last,
        bottom: y.first,
        top: y.last,
    }
}

// How many members n triangles have.
pub fn total(mesh: &[f64], n: usize, g: Grid) -> usize
    requires { Gridded mesh.now n g }
    ensures { result ≡ total_of mesh.now g n }
{
    let mut t: usize = 0;
    // by index: triangle i is nine numbers of the mesh
    for i in 0..n {
        t += cells::area(cells_of(mesh, g, i));
    }
    t
}

// Both tables of n triangles.
fn tables(mesh: &[f64], n: usize, g: Grid, starts: &mut [u32], members: &mut [u32])
    requires gridded { Gridded mesh.now n g }
    requires fits { Fits (cover_of mesh.now g) n (cells_in g) starts.old members.old }
    ensures starts_after { starts.new ≡ starts_of (cover_of mesh.now g) n (cells_in g) starts.old }
    ensures members_after { members.new ≡ members_table (cover_of mesh.now g) n (cells_in g) members.old }
{
    let cells = g.rows * g.columns;
    cells::clear(starts, cells + 1);
    count_all(mesh, n, g, starts);
    cells::sum_up(starts, cells + 1);
    fill(mesh, n, g, cells, starts, members);
}

// The number of triangles in each cell, added to its entry.
fn count_all(mesh: &[f64], n: usize, g: Grid, starts: &mut [u32])
    requires gridded { Gridded mesh.now n g }
    requires room { Room (cover_of mesh.now g) n starts.old }
    ensures { CountedAll (cover_of mesh.now g) n starts.old starts.new }
{
    let columns = g.columns;
    // by index: triangle i is nine numbers of the mesh
    for i in 0..n {
        cells::count_cells(starts, columns, cells_of(mesh, g, i));
    }
}

// Every triangle put in each of its cells, from the last one back: each start goes from its cell's end down to its begin.
fn fill(mesh: &[f64], n: usize, g: Grid, cells: usize, starts: &mut [u32], members: &mut [u32])
    requires gridded { Gridded mesh.now n g }
    requires ready { Ready (cover_of mesh.now g) n cells starts.old members.old }
    ensures { Filled (cover_of mesh.now g) n cells 0
        starts.old members.old starts.new members.new }
{
    let columns = g.columns;
    let mut i = n;
    // by index: from the last triangle back, and its number is what is put
    while 0 < i {
        i -= 1;
        cells::place_cells(starts, members, columns, cells_of(mesh, g, i), i as u32);
    }
}
