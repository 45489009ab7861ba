// The index of a mesh in whole micrometres: a grid over it whose cell is a power of two, and for each cell the triangles that cover it, in two lent tables.
#![tactic(auto)]

ghost use Rattle.std.specs.Prelude.{◌≡◌, ◌+◌, ◌*◌, ◌/◌, ◌^◌, ◌<◌, ◌≤◌, length};
ghost use Rattle.cells.specs.Cover.{starts_of, members_table};
ghost use Rattle.cells.specs.Inside.{Room, CountedAll, Ready, Filled, Fits};
ghost use Rattle.micro.specs.Micro.{box_of};
ghost use Rattle.um.specs.Grid.{triangles_in, widened, extent_of, cells_along, grid_of, fits as fitsIn};
ghost use Rattle.um.specs.Grid.{size_of, cells_in, stretch_of, cells_of, cover_of, total_of};
ghost use Rattle.refusals.specs.Numbers.{code_of, told_in};
ghost use Rattle.um.specs.Build.{first_bad, told, told_with, refusal_of_numbers, refusal_of_mesh, outcome, filled_of, gridded, build_of};
ghost use Rattle.um.specs.Index.{index_of, BuildPromise};
ghost use Rattle.um.specs.Inside.{Above, Gridded};

use micro::Box;
use refusals::Refusal;

// The extremes of a mesh on both axes.
#[derive(Clone, Copy)]
pub struct Extent {
    pub left: u64,
    pub right: u64,
    pub bottom: u64,
    pub top: u64,
}

// Where a grid begins, how large its cells are, and how many there are.
#[derive(Clone, Copy)]
pub struct Grid {
    pub x: u64,
    pub y: u64,
    pub cell: u64,
    pub columns: usize,
    pub rows: usize,
}

// The cells of a triangle on one axis, both ends included.
#[derive(Clone, Copy)]
struct Stretch {
    first: usize,
    last: usize,
}

// What an index records of its mesh and its grid. Origin, floor and r are counted from the least i32.
#[derive(Clone, Copy)]
pub struct Header {
    pub n: usize,
    pub x: u64,
    pub y: u64,
    pub floor: u64,
    pub r: u64,
    pub columns: usize,
    pub rows: usize,
    pub cell: u64,
}

// The index of a mesh: its header; starts and members hold its tables, and entries that they do not need stay. A refused call changes neither; 4 tells which
// number of the mesh came first. Floor and r are counted.
pub fn build_um(
    mesh: &[i32],
    floor: u64,
    r: u64,
    starts: &mut [u32],
    members: &mut [u32],
) -> Result<Header, Refusal>
    ensures members_after { outcome (told result) starts.new members.new
        ≡ build_of mesh.now floor r starts.old members.old }
    ensures build_promise { BuildPromise (index_of mesh.now (told result).header starts.new members.new) (told result).refusal }
{
    refusal_of_mesh(mesh, floor, r)?;
    build_grid(mesh, floor, r, starts, members)
}

// Refusals 1, 3, 2 and 4.
#[tactic(auto, using(rules::proofs::Ladder::ladder), unfolding(crate::specs::Build::refusal_of_mesh, crate::specs::Build::told_with, refusals::specs::Numbers::code_of, refusals::specs::Numbers::told_in, refusals::specs::Numbers::number_of, refusals::specs::Numbers::told_of))]
fn refusal_of_mesh(mesh: &[i32], floor: u64, r: u64) -> Result<(), Refusal>
    ensures code { code_of result ≡ refusal_of_mesh mesh.now floor r }
    ensures place { told_in result ≡ told_with (code_of result) mesh.now }
{
    if mesh.len() % 9 != 0 {
        return Err(Refusal::Length);
    }
    let n = mesh.len() / 9;
    if rules::MOST < n {
        return Err(Refusal::Length);
    }
    if n == 0 {
        return Err(Refusal::Empty);
    }
    refusal_of_numbers(mesh, floor, r)
}

// Refusals 2 and 4.
#[tactic(auto, using(rules::proofs::Ladder::ladder, crate::proofs::Accepting::place_fits), unfolding(crate::specs::Build::refusal_of_numbers, crate::specs::Build::told_with, refusals::specs::Numbers::code_of, refusals::specs::Numbers::told_in, refusals::specs::Numbers::number_of, refusals::specs::Numbers::told_of, fields::specs::Rows::somewhere, crate::specs::Build::place_of))]
fn refusal_of_numbers(mesh: &[i32], floor: u64, r: u64) -> Result<(), Refusal>
    requires { length mesh.now ≤ 589824 }
    ensures code { code_of result ≡ refusal_of_numbers mesh.now floor r }
    ensures place { told_in result ≡ told_with (code_of result) mesh.now }
{
    if !micro::is_coordinate(floor) {
        return Err(Refusal::Number);
    }
    if !micro::is_radius(r) {
        return Err(Refusal::Number);
    }
    match first_bad(mesh) {
        None => Ok(()),
        Some(k) => Err(Refusal::Coordinate(k as u32)),
    }
}

// The first number of the mesh that is no coordinate.
fn first_bad(mesh: &[i32]) -> Option<usize>
    ensures { result ≡ first_bad mesh.now }
{
    // by index: the place is what is told
    for k in 0..mesh.len() {
        if !micro::is_coordinate(micro::number_at(mesh, k)) {
            return Some(k);
        }
    }
    None
}

// The index of a mesh that refusals 1 to 4 pass.
fn build_grid(
    mesh: &[i32],
    floor: u64,
    r: u64,
    starts: &mut [u32],
    members: &mut [u32],
) -> Result<Header, Refusal>
    requires { refusal_of_mesh mesh.now floor r ≡ 0 }
    ensures { outcome (told result) starts.new members.new
        ≡ gridded mesh.now (triangles_in mesh.now) floor r starts.old members.old }
{
    let n = mesh.len() / 9;
    let e = extent_of(mesh, n);
    let cell = size_of(e, starts.len());
    if cell == 0 {
        return Err(Refusal::Starts);
    }
    fill_grid(mesh, n, grid_of(e, cell), floor, r, starts, members)
}

// The extremes of the first n triangles.
fn extent_of(mesh: &[i32], n: usize) -> Extent
    requires { n * 9 ≤ length mesh.now }
    ensures { result ≡ extent_of mesh.now n }
{
    let mut e = Extent {
        left: 4294967295,
        right: 0,
        bottom: 4294967295,
        top: 0,
    };
    // by index: triangle i is nine numbers of the mesh
    for i in 0..n {
        e = widen(e, micro::box_of(mesh, i));
    }
    e
}

// The extremes with one box more.
fn widen(e: Extent, b: Box) -> Extent
    ensures { result ≡ widened e b }
{
    Extent {
        left: micro::lower(e.left, b.low_x),
        right: micro::higher(e.right, b.high_x),
        bottom: micro::lower(e.bottom, b.low_y),
        top: micro::higher(e.top, b.high_y),
    }
}

// The smallest power of two up to 2^31 that fits, or 0.
fn size_of(e: Extent, lent: usize) -> u64
    requires { (e.left ≤ e.right) × (e.bottom ≤ e.top) × (e.right < 2 ^ 32) × (e.top < 2 ^ 32) }
    ensures { result ≡ size_of e lent }
{
    let mut cell: u64 = 1;
    for k in 0..32usize {
        if fits(e, lent, cell) {
            return cell;
        }
        cell = cell * 2;
    }
    0
}

// Whether a cell of this size fits.
fn fits(e: Extent, lent: usize, cell: u64) -> bool
    requires { (e.left ≤ e.right) × (e.bottom ≤ e.top) × (e.right < 2 ^ 32) × (e.top < 2 ^ 32) × (0 < cell) }
    ensures { result ≡ fitsIn e lent cell }
{
    let columns = cells_along(e.left, e.right, cell);
    let rows = cells_along(e.bottom, e.top, cell);
    grid::refusal_of_grid(columns, rows, lent).is_ok()
}

// Cells on an axis.
fn cells_along(lo: u64, hi: u64, cell: u64) -> usize
    requires { (lo ≤ hi) × (hi < 2 ^ 32) × (0 < cell) }
    ensures { result ≡ cells_along lo hi cell }
{
    ((hi - lo) / cell) as usize + 1
}

// The grid with cells of this size.
fn grid_of(e: Extent, cell: u64) -> Grid
    requires { (e.left ≤ e.right) × (e.bottom ≤ e.top) × (e.right < 2 ^ 32) × (e.top < 2 ^ 32) × (0 < cell) }
    ensures { result ≡ grid_of e cell }
{
    let columns = cells_along(e.left, e.right, cell);
    let rows = cells_along(e.bottom, e.top, cell);
    Grid {
        x: e.left,
        y: e.bottom,
        cell,
        columns,
        rows,
    }
}

// The tables of a grid, or refusal 6.
fn fill_grid(
    mesh: &[i32],
    n: usize,
    g: Grid,
    floor: u64,
    r: u64,
    starts: &mut [u32],
    members: &mut [u32],
) -> Result<Header, Refusal>
    requires gridded { Gridded mesh.now n g }
    requires g_in_bounds { cells_in g + 1 ≤ length starts.old }
    ensures { outcome (told result) starts.new members.new
        ≡ filled_of mesh.now n g floor r starts.old members.old }
{
    grid::refusal_of_members(total(mesh, n, g), members.len())?;
    tables(mesh, n, g, starts, members);
    Ok(Header {
        n,
        x: g.x,
        y: g.y,
        floor,
        r,
        columns: g.columns,
        rows: g.rows,
        cell: g.cell,
    })
}

// The cells of a triangle on an axis of so many cells, from its low end to its high end, held to the last one.
fn stretch_of(origin: u64, cell: u64, count: usize, low: u64, high: u64) -> Stretch
    requires { (origin ≤ low) × (origin ≤ high) × (0 < cell) × (0 < count) }
    ensures { result ≡ stretch_of origin cell count low high }
{
    let first = ((low - origin) / cell) as usize;
    let last = ((high - origin) / cell) as usize;
    if last <= count - 1 {
        return Stretch { first, last };
    }
    Stretch {
        first,
        last: count - 1,
    }
}

// The cells of triangle i.
fn cells_of(mesh: &[i32], g: Grid, i: usize) -> cells::Cells
    requires { (i * 9 + 9 ≤ length mesh.now) × (0 < g.columns) × (0 < g.rows) × (0 < g.cell) × Above g (box_of mesh.now i) }
    ensures { result ≡ cells_of mesh.now g i }
{
    let b = micro::box_of(mesh, i);
    let x = stretch_of(g.x, g.cell, g.columns, b.low_x, b.high_x);
    let y = stretch_of(g.y, g.cell, g.rows, b.low_y, b.high_y);
    cells::Cells {
        left: x.first,
        right: x.last,
        bottom: y.first,
        top: y.last,
    }
}

// How many members n triangles have.
fn total(mesh: &[i32], n: usize, g: Grid) -> usize
    requires { Gridded mesh.now n g }
    ensures { result ≡ total_of mesh.now g n }
{
    let mut t: usize = 0;
    // by index: triangle i is nine numbers of the mesh
    for i in 0..n {
        t += cells::area(cells_of(mesh, g, i));
    }
    t
}

// Both tables of n triangles.
fn tables(mesh: &[i32], n: usize, g: Grid, starts: &mut [u32], members: &mut [u32])
    requires gridded { Gridded mesh.now n g }
    requires fits { Fits (cover_of mesh.now g) n (cells_in g) starts.old members.old }
    ensures starts_after { starts.new ≡ starts_of (cover_of mesh.now g) n (cells_in g) starts.old }
    ensures members_after { members.new ≡ members_table (cover_of mesh.now g) n (cells_in g) members.old }
{
    let cells = g.rows * g.columns;
    cells::clear(starts, cells + 1);
    count_all(mesh, n, g, starts);
    cells::sum_up(starts, cells + 1);
    fill(mesh, n, g, cells, starts, members);
}

// The number of triangles in each cell, added to its entry.
fn count_all(mesh: &[i32], n: usize, g: Grid, starts: &mut [u32])
    requires gridded { Gridded mesh.now n g }
    requires room { Room (cover_of mesh.now g) n starts.old }
    ensures { CountedAll (cover_of mesh.now g) n starts.old starts.new }
{
    let columns = g.columns;
    // by index: triangle i is nine numbers of the mesh
    for i in 0..n {
        cells::count_cells(starts, columns, cells_of(mesh, g, i));
    }
}

// Every triangle put in each of its cells, from the last one back: each start goes from its cell's end down to its begin.
fn fill(mesh: &[i32], n: usize, g: Grid, cells: usize, starts: &mut [u32], members: &mut [u32])
    requires gridded { Gridded mesh.now n g }
    requires ready { Ready (cover_of mesh.now g) n cells starts.old members.old }
    ensures { Filled (cover_of mesh.now g) n cells 0
        starts.old members.old starts.new members.new }
{
    let columns = g.columns;
    let mut i = n;
    // by index: from the last triangle back, and its number is what is put
    while 0 < i {
        i -= 1;
        cells::place_cells(starts, members, columns, cells_of(mesh, g, i), i as u32);
    }
}
