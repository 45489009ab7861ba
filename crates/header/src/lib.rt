// What refusal 7 tests of a header by itself: its ranges, its n against the mesh's, and the length of starts.
#![tactic(auto)]

ghost use Rattle.std.specs.Prelude.{◌≡◌, ◌&&◌, ◌*◌};
ghost use Rattle.std.specs.Float.Ieee.{lt, le};
ghost use Rattle.numbers.specs.Reals.{f0, millionth, two_million, two_millionths};
ghost use Rattle.rules.specs.Limits.{most, most_cells};
ghost use Rattle.rules.specs.Every.{is_from};
ghost use Rattle.plane.specs.Ranges.{is_coordinate, is_radius};
ghost use Rattle.grid.specs.Header.{in_ranges};
ghost use Rattle.header.specs.Head.{head_usable, sizes_in_ranges};

use grid::Header;

// Whether a header is in its ranges.
pub fn in_ranges(h: Header) -> bool
    ensures { result ≡ in_ranges h }
{
    let n = h.n;
    let x = h.origin_x;
    let y = h.origin_y;
    let cell = h.cell;
    let columns = h.columns;
    let rows = h.rows;
    let floor = h.floor;
    let eps = h.eps;
    let r = h.r;
    is_from(1, rules::MOST, n)
        && (places_in_ranges(x, y, floor) && sizes_in_ranges(cell, columns, rows, eps, r))
}

// Whether the header is in its ranges, its n is the mesh's, and starts has an entry for each cell and one more.
pub fn head_usable(mesh: &[f64], h: Header, starts: &[u32]) -> bool
    ensures { result ≡ head_usable mesh.now h starts.now }
{
    let n = h.n;
    let columns = h.columns;
    let rows = h.rows;
    in_ranges(h) && (mesh.len() == n * 9 && rows * columns + 1 <= starts.len())
}

// Whether k is one of the numbers from a to e.
pub fn is_from(a: usize, e: usize, k: usize) -> bool
    ensures { result ≡ is_from a e k }
{
    a <= k && k <= e
}

// Whether an origin and a floor are in their ranges.
fn places_in_ranges(x: f64, y: f64, floor: f64) -> bool
    ensures { result ≡ (is_coordinate x && (is_coordinate y && is_coordinate floor)) }
{
    plane::is_coordinate(x) && (plane::is_coordinate(y) && plane::is_coordinate(floor))
}

// Whether a grid has at least one cell, and columns, rows and cells are within refusal 5.
fn counts_in_ranges(columns: usize, rows: usize) -> bool
    ensures { result ≡ (is_from 1 most columns && (is_from 1 most rows && is_from 1 most_cells (rows * columns))) }
{
    is_from(1, rules::MOST, columns)
        && (is_from(1, rules::MOST, rows) && is_from(1, rules::MOST_CELLS, rows * columns))
}

// Whether a cell size is in its range.
fn size_in_range(cell: f64) -> bool
    ensures { result ≡ (le millionth cell && le cell two_million) }
{
    1e-6 <= cell && cell <= 2e6
}

// Whether eps and r are.
fn eps_in_range(eps: f64, r: f64) -> bool
    ensures { result ≡ ((lt f0 eps && le eps two_millionths) && is_radius r) }
{
    0.0 < eps && (eps <= 2e-6 && plane::is_radius(r))
}

// Whether cell size, columns, rows, eps and r are.
fn sizes_in_ranges(cell: f64, columns: usize, rows: usize, eps: f64, r: f64) -> bool
    ensures { result ≡ sizes_in_ranges cell columns rows eps r }
{
    size_in_range(cell) && (counts_in_ranges(columns, rows) && eps_in_range(eps, r))
}
