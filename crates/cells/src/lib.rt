// The two tables of an index without its floats: a triangle arrives as the cells that it covers. Cells are counted, the counts
// become running sums, and from the last triangle back each number is placed.
#![tactic(auto)]

ghost use Rattle.std.specs.Prelude.{◌≡◌, ◌+◌, ◌*◌, ◌^◌, ◌<◌, ◌≤◌, length};
ghost use Rattle.cells.specs.Cover.{covers, area_of};
ghost use Rattle.cells.specs.Inside.{Fitting, between, entry, sums, Countable, Counted, Cleared, Summed, Open, Placed};

// The cells that a triangle covers: columns left to right of rows bottom to top, both ends included.
#[derive(Clone, Copy)]
pub struct Cells {
    pub left: usize,
    pub right: usize,
    pub bottom: usize,
    pub top: usize,
}

// The first k entries become 0.
pub fn clear(starts: &mut [u32], k: usize)
    requires { k ≤ length starts.old }
    ensures { Cleared k starts.old starts.new }
{
    for c in 0..k {
        starts[c] = 0;
    }
}

// One more at each entry from a up to e.
fn count_row(starts: &mut [u32], a: usize, e: usize)
    requires { Countable (between a e) starts.old }
    ensures { Counted (between a e) starts.old starts.new }
{
    for c in a..e {
        starts[c] += 1;
    }
}

// One more at each cell of a triangle.
pub fn count_cells(starts: &mut [u32], columns: usize, b: Cells)
    requires fitting { Fitting columns b }
    requires countable { Countable (covers columns b) starts.old }
    ensures { Counted (covers columns b) starts.old starts.new }
{
    let x0 = b.left;
    let x1 = b.right;
    let y0 = b.bottom;
    let y1 = b.top;
    if x1 < x0 {
        return;
    }
    for y in y0..y1 + 1 {
        count_row(starts, y * columns + x0, y * columns + x1 + 1);
    }
}

// Each of the first k entries becomes the sum of those up to and with it.
pub fn sum_up(starts: &mut [u32], k: usize)
    requires k_nonzero { (0 < k) × (k ≤ length starts.old) }
    requires k_bound { sums (entry starts.old) k < 2 ^ 32 }
    ensures { Summed k starts.old starts.new }
{
    for c in 1..k {
        starts[c] += starts[c - 1];
    }
}

// Triangle i put in each cell from a up to e: the cell's start goes down by one, and i stands there.
fn place_row(starts: &mut [u32], members: &mut [u32], a: usize, e: usize, i: u32)
    requires { Open (between a e) starts.old members.old }
    ensures { Placed (between a e) i starts.old members.old starts.new members.new }
{
    for c in a..e {
        let at = starts[c] - 1;
        starts[c] = at;
        members[at as usize] = i;
    }
}

// Triangle i put in each of its cells.
pub fn place_cells(starts: &mut [u32], members: &mut [u32], columns: usize, b: Cells, i: u32)
    requires fitting { Fitting columns b }
    requires fact { Open (covers columns b) starts.old members.old }
    ensures { Placed (covers columns b) i starts.old members.old starts.new members.new }
{
    let x0 = b.left;
    let x1 = b.right;
    let y0 = b.bottom;
    let y1 = b.top;
    if x1 < x0 {
        return;
    }
    for y in y0..y1 + 1 {
        place_row(starts, members, y * columns + x0, y * columns + x1 + 1, i);
    }
}

// How many cells a triangle covers.
pub fn area(b: Cells) -> usize
    requires { (b.right < 65536) × (b.top < 65536) }
    ensures { (result ≡ area_of b) × (result ≤ 4294967296) }
{
    let x0 = b.left;
    let x1 = b.right;
    let y0 = b.bottom;
    let y1 = b.top;
    if x1 < x0 {
        return 0;
    }
    if y1 < y0 {
        return 0;
    }
    (x1 + 1 - x0) * (y1 + 1 - y0)
}
