// A question's cells, what refusal 7 tests of a header and its tables, and the list of numbers that a walk may go over in place of the cells. Of what a
// question is lent these functions read, and never write.
#![tactic(auto)]

ghost use Rattle.std.specs.Prelude.{cond, [], ◌∷◌, ◌≡◌, ◌+◌, ◌*◌, ◌≤◌, ◌<◌, min, length, set, is_some, IfSome};
ghost use Rattle.walk.specs.Walk.{cell, row, block};
ghost use Rattle.walk.specs.Inside.{StandsFor};
ghost use Rattle.grid.specs.Index.{index_of};
ghost use Rattle.query.specs.Asked.{is_marked};
ghost use Rattle.query.specs.Patch.{held_to, axis_span, patch_of};
ghost use Rattle.query.specs.Looked.{within, UsablePromise};
ghost use Rattle.query.specs.Inside.{seven_squares, Tested, Adds};
ghost use Rattle.rules.specs.Every.{each};
ghost use Rattle.query.specs.Usable.{corners_usable, are_coordinates, box_usable, triangle_usable, member_usable, cell_usable, row_usable, cells_usable, usable};

use grid::Header;
use plane::Bounds;

// The cells on one axis, from the first up to the one past the last.
#[derive(Clone, Copy)]
pub struct Span {
    pub first: usize,
    pub past: usize,
}

// A question's cells: columns x0 up to x1 of rows y0 up to y1.
#[derive(Clone, Copy)]
pub struct Patch {
    pub x0: usize,
    pub x1: usize,
    pub y0: usize,
    pub y1: usize,
}

// Whether the mesh is nine numbers for each mark, and not too many.
pub fn is_marked(mesh: &[f64], marks: &[u32]) -> bool
    ensures { result ≡ is_marked mesh.now marks.now }
{
    let n = marks.len();
    n <= rules::MOST && mesh.len() == n * 9
}

// The cells from lo to hi on an axis of so many.
fn held(count: usize, lo: f64, hi: f64) -> Span
    ensures { result ≡ held_to count lo hi }
{
    if hi < 0.0 {
        return Span { first: 0, past: 0 };
    }
    let first = numbers::cut(lo) as usize;
    if count <= first {
        return Span { first: 0, past: 0 };
    }
    Span {
        first,
        past: one_past(count, numbers::cut(hi) as usize),
    }
}

// One past the last, held to the count.
fn one_past(count: usize, last: usize) -> usize
    ensures { result ≡ min (last + 1) count }
{
    if last < count { last + 1 } else { count }
}

// The cells on an axis of a question from a to b.
fn span_of(a: f64, b: f64, reach: f64, origin: f64, cell: f64, count: usize) -> Span
    ensures { result ≡ axis_span a b reach origin cell count }
{
    let lo = numbers::round_down((numbers::min(a, b) - reach - origin) / cell);
    let hi = numbers::round_down((numbers::max(a, b) + reach - origin) / cell);
    held(count, lo, hi)
}

// The cells of a question from p to q.
pub fn patch_of(h: Header, px: f64, py: f64, qx: f64, qy: f64, reach: f64) -> Patch
    ensures { result ≡ patch_of h px py qx qy reach }
{
    let x = span_of(px, qx, reach, h.origin_x, h.cell, h.columns);
    let y = span_of(py, qy, reach, h.origin_y, h.cell, h.rows);
    Patch {
        x0: x.first,
        x1: x.past,
        y0: y.first,
        y1: y.past,
    }
}

// What refusal 7 tests of a question with the cells p: none if it refuses, and else how many numbers of the list stand for those of the cells, most of them
// once, or 2,049 if they were too many for it. The list has 2,048 places.
pub fn usable(
    mesh: &[f64],
    h: Header,
    starts: &[u32],
    members: &[u32],
    boxes: &[f64],
    marks: &[u32],
    stamp: u32,
    p: Patch,
    list: &mut [u32],
) -> Option<u32>
    requires { (length mesh.now ≡ length marks.now * 9) × (p.x1 ≤ h.columns) × (p.y1 ≤ h.rows) × (length boxes.now ≡ length marks.now * 5)
        × (length list.old ≡ 2048) }
    ensures usable_value { is_some result
        ≡ usable (index_of mesh.now h starts.now members.now boxes.now) marks.now stamp p }
    ensures usable_promise { UsablePromise (index_of mesh.now h starts.now members.now boxes.now) marks.now stamp p (is_some result) }
    ensures stands_for { IfSome result (λ count. count ≤ 2048 → StandsFor h.n
        (within (index_of mesh.now h starts.now members.now boxes.now) p) list.new count) }
{
    let n = h.n;
    let columns = h.columns;
    if header::head_usable(mesh, h, starts) {
        let mut recent = [65535u16; 1024];
        cells_usable(
            mesh,
            n,
            starts,
            members,
            boxes,
            marks,
            stamp,
            columns,
            p,
            &mut recent,
            list,
        )
    } else {
        None
    }
}

// The cells that a walk goes over: the one of a list that holds them all, if that is wanted, and else p.
pub fn narrowed(listed: bool, p: Patch) -> Patch
    ensures { result ≡ cond listed (record { x0 = 0; x1 = 1; y0 = 0; y1 = 1 }) p }
{
    if listed {
        return Patch {
            x0: 0,
            x1: 1,
            y0: 0,
            y1: 1,
        };
    }
    p
}

// Whether no number of triangle i and of its box is one that 4 would refuse: none is where the squares of all fourteen have a small sum, and else
// each is looked at. Taken in pairs as they lie in the tables, the numbers come two at a time.
pub fn triangle_usable(mesh: &[f64], boxes: &[f64], i: usize) -> bool
    requires { (9 * i + 9 ≤ length mesh.now) × (5 * i + 5 ≤ length boxes.now) }
    ensures { result ≡ triangle_usable mesh.now boxes.now i }
{
    let k = 9 * i;
    let j = 5 * i;
    let evens = seven_squares(
        mesh[k],
        mesh[k + 2],
        mesh[k + 4],
        mesh[k + 6],
        boxes[j],
        boxes[j + 2],
        mesh[k + 8],
    );
    let odds = seven_squares(
        mesh[k + 1],
        mesh[k + 3],
        mesh[k + 5],
        mesh[k + 7],
        boxes[j + 1],
        boxes[j + 3],
        boxes[j + 4],
    );
    if evens + odds <= 9e11 {
        return true;
    }
    each_usable(mesh, boxes, i)
}

// The sum of seven squares.
fn seven_squares(a: f64, b: f64, c: f64, d: f64, e: f64, f: f64, g: f64) -> f64
    ensures { result ≡ seven_squares a b c d e f g }
{
    ((a * a + b * b) + (c * c + d * d)) + (e * e + f * f) + g * g
}

// The same of each number by itself.
fn each_usable(mesh: &[f64], boxes: &[f64], i: usize) -> bool
    requires { (9 * i + 9 ≤ length mesh.now) × (5 * i + 5 ≤ length boxes.now) }
    ensures { result ≡ triangle_usable mesh.now boxes.now i }
{
    corners_usable(mesh, i) && box_usable(grid::box_at(boxes, i))
}

// Whether no number of a box is one that 4 would refuse.
fn box_usable(b: Bounds) -> bool
    ensures { result ≡ box_usable b }
{
    let top = b.top;
    are_coordinates(b.low_x, b.low_y, b.high_x, b.high_y) && plane::is_coordinate(top)
}

// Whether four numbers are coordinates.
fn are_coordinates(a: f64, b: f64, c: f64, d: f64) -> bool
    ensures { result ≡ are_coordinates a b c d }
{
    plane::is_coordinate(a)
        && (plane::is_coordinate(b) && (plane::is_coordinate(c) && plane::is_coordinate(d)))
}

// Whether no coordinate of triangle i is one that 4 would refuse, one after the other.
fn corners_usable(mesh: &[f64], i: usize) -> bool
    requires { 9 * i + 9 ≤ length mesh.now }
    ensures { result ≡ corners_usable mesh.now i }
{
    for k in 9 * i..9 * i + 9 {
        if !plane::is_coordinate(mesh[k]) {
            return false;
        }
    }
    true
}

// Whether member i of a question's cells can be looked at.
fn member_usable(mesh: &[f64], boxes: &[f64], n: usize, marks: &[u32], stamp: u32, i: usize) -> bool
    requires { (length mesh.now ≡ n * 9) × (length marks.now ≡ n) × (length boxes.now ≡ n * 5) }
    ensures { result ≡ member_usable mesh.now boxes.now n marks.now stamp i }
{
    i < n && (triangle_usable(mesh, boxes, i) && marks[i] <= stamp)
}

// The same of a member of which `recent` may tell that it was tested: a triangle stands in several cells, one beside the other. It has 1,024 places of
// 16 bits, of which 65535 tells nothing. A number that is not remembered is put behind the list.
fn tested(
    mesh: &[f64],
    boxes: &[f64],
    n: usize,
    marks: &[u32],
    stamp: u32,
    i: u32,
    recent: &mut [u16],
    list: &mut [u32],
    count: u32,
) -> Option<u32>
    requires { (n ≤ 65536) × (length mesh.now ≡ n * 9) × (length marks.now ≡ n) × (length boxes.now ≡ n * 5) × (length list.old ≡ 2048)
        × Tested (member_usable mesh.now boxes.now n marks.now stamp) recent.old }
    ensures { (is_some result
        ≡ member_usable mesh.now boxes.now n marks.now stamp i)
        × IfSome result (λ after. Tested (member_usable mesh.now boxes.now n marks.now stamp) recent.new
        × Adds n (i ∷ []) recent.old list.old count recent.new list.new after) }
{
    let k = place_of(i);
    if i as usize >= n {
        return None;
    }
    let short = i as u16;
    if recent[k] == short {
        if i < 65535 {
            return Some(count);
        }
    }
    if member_usable(mesh, boxes, n, marks, stamp, i as usize) {
        recent[k] = short;
        return Some(put(list, count, i));
    }
    None
}

// The number i put behind so many of a list, and how many there are then: 2,049 where it has no room.
fn put(list: &mut [u32], count: u32, i: u32) -> u32
    requires { length list.old ≡ 2048 }
    ensures { (count < 2048 → (result ≡ count + 1) × (list.new ≡ set list.old count i))
        × (2048 ≤ count → (result ≡ 2049) × (list.new ≡ list.old)) }
{
    if count < 2048 {
        list[count as usize] = i;
        return count + 1;
    }
    2049
}

// The place of number i.
fn place_of(i: u32) -> usize
    ensures { result < 1024 }
{
    (i % 1024) as usize
}

// Whether each number of one cell can be looked at.
fn members_usable(
    mesh: &[f64],
    boxes: &[f64],
    n: usize,
    marks: &[u32],
    stamp: u32,
    part: &[u32],
    recent: &mut [u16],
    list: &mut [u32],
    from: u32,
) -> Option<u32>
    requires { (n ≤ 65536) × (length mesh.now ≡ n * 9) × (length marks.now ≡ n) × (length boxes.now ≡ n * 5) × (length list.old ≡ 2048)
        × Tested (member_usable mesh.now boxes.now n marks.now stamp) recent.old }
    ensures { (is_some result
        ≡ each (member_usable mesh.now boxes.now n marks.now stamp) part.now)
        × IfSome result (λ after. Tested (member_usable mesh.now boxes.now n marks.now stamp) recent.new
        × Adds n part.now recent.old list.old from recent.new list.new after) }
{
    let mut count = from;
    for i in part {
        count = tested(mesh, boxes, n, marks, stamp, *i, recent, list, count)?;
    }
    Some(count)
}

// Whether the stretch of cell c lies in the member table, and each of its numbers can be looked at.
fn cell_usable(
    mesh: &[f64],
    n: usize,
    starts: &[u32],
    members: &[u32],
    boxes: &[f64],
    marks: &[u32],
    stamp: u32,
    c: usize,
    recent: &mut [u16],
    list: &mut [u32],
    count: u32,
) -> Option<u32>
    requires { (n ≤ 65536) × (length mesh.now ≡ n * 9) × (length marks.now ≡ n) × (c + 1 < length starts.now) × (length boxes.now ≡ n * 5)
        × (length list.old ≡ 2048) × Tested (member_usable mesh.now boxes.now n marks.now stamp) recent.old }
    ensures { (is_some result
        ≡ cell_usable (member_usable mesh.now boxes.now n marks.now stamp) starts.now members.now c)
        × IfSome result (λ after. Tested (member_usable mesh.now boxes.now n marks.now stamp) recent.new
        × Adds n (cell starts.now members.now c)
        recent.old list.old count recent.new list.new after) }
{
    let a = starts[c] as usize;
    let e = starts[c + 1] as usize;
    if e < a {
        return None;
    }
    if members.len() < e {
        return None;
    }
    members_usable(
        mesh,
        boxes,
        n,
        marks,
        stamp,
        &members[a..e],
        recent,
        list,
        count,
    )
}

// The same of columns x0 up to x1 of row y.
fn row_usable(
    mesh: &[f64],
    n: usize,
    starts: &[u32],
    members: &[u32],
    boxes: &[f64],
    marks: &[u32],
    stamp: u32,
    columns: usize,
    x0: usize,
    x1: usize,
    y: usize,
    recent: &mut [u16],
    list: &mut [u32],
    from: u32,
) -> Option<u32>
    requires { (n ≤ 65536) × (length mesh.now ≡ n * 9) × (length marks.now ≡ n) × (y * columns + x1 < length starts.now) × (length boxes.now ≡ n * 5)
        × (length list.old ≡ 2048) × Tested (member_usable mesh.now boxes.now n marks.now stamp) recent.old }
    ensures { (is_some result
        ≡ row_usable (member_usable mesh.now boxes.now n marks.now stamp)
        starts.now members.now columns x0 x1 y)
        × IfSome result (λ after. Tested (member_usable mesh.now boxes.now n marks.now stamp) recent.new
        × Adds n (row starts.now members.now columns x0 x1 y)
        recent.old list.old from recent.new list.new after) }
{
    let mut count = from;
    for x in x0..x1 {
        count = cell_usable(
            mesh,
            n,
            starts,
            members,
            boxes,
            marks,
            stamp,
            y * columns + x,
            recent,
            list,
            count,
        )?;
    }
    Some(count)
}

// The same of each of a question's cells.
fn cells_usable(
    mesh: &[f64],
    n: usize,
    starts: &[u32],
    members: &[u32],
    boxes: &[f64],
    marks: &[u32],
    stamp: u32,
    columns: usize,
    p: Patch,
    recent: &mut [u16],
    list: &mut [u32],
) -> Option<u32>
    requires { (n ≤ 65536) × (length mesh.now ≡ n * 9) × (length marks.now ≡ n) × (p.x1 ≤ columns) × (p.y1 * columns < length starts.now)
        × (length boxes.now ≡ n * 5) × (length list.old ≡ 2048)
        × Tested (member_usable mesh.now boxes.now n marks.now stamp) recent.old }
    ensures { (is_some result
        ≡ cells_usable (member_usable mesh.now boxes.now n marks.now stamp)
        starts.now members.now columns p)
        × IfSome result (λ after. Tested (member_usable mesh.now boxes.now n marks.now stamp) recent.new
        × Adds n (block starts.now members.now columns p.x0 p.x1 p.y0 p.y1)
        recent.old list.old 0 recent.new list.new after) }
{
    let x0 = p.x0;
    let x1 = p.x1;
    let y0 = p.y0;
    let y1 = p.y1;
    let mut count = 0u32;
    for y in y0..y1 {
        count = row_usable(
            mesh, n, starts, members, boxes, marks, stamp, columns, x0, x1, y, recent, list, count,
        )?;
    }
    Some(count)
}
