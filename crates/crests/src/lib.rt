// The swept-disk height where it only enters a comparison, as in the plan: cells none of whose triangles has its top above the best so far are passed over.
// A table of crests tells that: the highest top of each two cells side by side.
#![tactic(auto)]

ghost use Rattle.std.specs.Prelude.{◌≡◌, ◌+◌, ◌*◌, ◌^◌, ◌≤◌, ◌<◌, length};
ghost use Rattle.std.specs.Float.Ieee.{le};
ghost use Rattle.numbers.specs.Reals.{num};
ghost use Rattle.walk.specs.Walk.{cell, block, next_stamp};
ghost use Rattle.walk.specs.Inside.{seen, Room, Walkable};
ghost use Rattle.grid.specs.Index.{index_of};
ghost use Rattle.query.specs.Looked.{within};
ghost use Rattle.ask.specs.Ask.{at_floor};
ghost use Rattle.height.specs.Sweep.{sweep, patch_for, capsule_for, disk_step};
ghost use Rattle.height.specs.Inside.{Sweepable};
ghost use Rattle.crests.specs.Inside.{place_of, Caps, CapsAll, Boxed, CapsOld, NoneAbove, Crested, Fair, Goes, Passed};

use capsule::Capsule;
use grid::Header;
use height::{Disk, Swept};
use plane::Best;
use query::Patch;
use walk::Seen;

// Lower than every coordinate.
pub const DEEPEST: f64 = -1e7;

// The place of cell c in a table of crests.
fn place_of(c: usize) -> usize
    ensures { (result ≡ place_of c) × (result < 8192) }
{
    c / 2 % 8192
}

// The higher of a crest and a top; where they do not compare, a NaN, which nothing is at least.
fn higher(crest: f64, top: f64) -> f64
    ensures { Caps result crest × Caps result top }
{
    if top <= crest {
        return crest;
    }
    if crest < top {
        return top;
    }
    0.0 / 0.0
}

// The crest with the tops of a cell's triangles.
fn crest_of(boxes: &[f64], part: &[u32], crest: f64) -> f64
    requires { Boxed boxes.now part.now }
    ensures { Caps result crest × CapsAll boxes.now result part.now }
{
    let mut highest = crest;
    for i in part {
        let b = grid::box_at(boxes, *i as usize);
        highest = higher(highest, b.top);
    }
    highest
}

// The crest at the place of cell c with the tops of the cell's triangles.
fn raise_crest(boxes: &[f64], part: &[u32], c: usize, crests: &mut [f64])
    requires { Boxed boxes.now part.now × (length crests.old ≡ 8192) }
    ensures { (length crests.new ≡ 8192) × CapsOld crests.new crests.old
        × CapsAll boxes.now (num crests.new (place_of c)) part.now }
{
    let k = place_of(c);
    crests[k] = crest_of(boxes, part, crests[k]);
}

// The crests of an index, over a table of 8192 numbers that are low.
pub fn fill(h: Header, starts: &[u32], members: &[u32], boxes: &[f64], crests: &mut [f64])
    requires { (length boxes.now ≡ h.n * 5) × Walkable starts.now members.now h.n h.columns 0 h.columns 0 h.rows
        × (length crests.old ≡ 8192) }
    ensures { Crested starts.now members.now boxes.now h.columns h.rows crests.new }
{
    let columns = h.columns;
    let rows = h.rows;
    for y in 0..rows {
        for x in 0..columns {
            let c = y * columns + x;
            raise_crest(boxes, walk::stretch(starts, members, c), c, crests);
        }
    }
}

// Whether no triangle of cell c has its top above z.
fn is_low(crests: &[f64], c: usize, z: f64) -> bool
    requires { length crests.now ≡ 8192 }
    ensures { result ≡ le (num crests.now (place_of c)) z }
{
    crests[place_of(c)] <= z
}

// The cell of column x and row y walked, or passed over where it is low.
fn pass_cell(
    mesh: &[f64],
    starts: &[u32],
    members: &[u32],
    boxes: &[f64],
    crests: &[f64],
    marks: &mut [u32],
    stamp: u32,
    columns: usize,
    x: usize,
    y: usize,
    q: Capsule,
    s: Seen<Best>,
) -> Seen<Best>
    requires { (length mesh.now ≡ length marks.old * 9) × (length boxes.now ≡ length marks.old * 5) × (length crests.now ≡ 8192)
        × Walkable starts.now members.now (length marks.old) columns x (x + 1) y (y + 1) × (x + 1 < 2 ^ 64) × (y + 1 < 2 ^ 64)
        × CapsAll boxes.now (num crests.now (place_of (y * columns + x))) (cell starts.now members.now (y * columns + x))
        × Room stamp (seen marks.old s) × Fair stamp (disk_step mesh.now boxes.now q) (seen marks.old s) }
    ensures { Goes stamp (disk_step mesh.now boxes.now q) (seen marks.old s)
        (cell starts.now members.now (y * columns + x)) (seen marks.new result) }
{
    let best = s.best;
    let c = y * columns + x;
    if is_low(crests, c, best.height) {
        return s;
    }
    let disk = Disk { mesh, boxes, q };
    walk::visit(
        &disk,
        starts,
        members,
        marks,
        stamp,
        columns,
        x,
        x + 1,
        y,
        y + 1,
        s,
    )
}

// The cells of a patch walked, or passed over where they are low. No row is begun with a best above the limit.
fn pass(
    mesh: &[f64],
    starts: &[u32],
    members: &[u32],
    boxes: &[f64],
    crests: &[f64],
    marks: &mut [u32],
    stamp: u32,
    columns: usize,
    rows: usize,
    p: Patch,
    q: Capsule,
    s: Seen<Best>,
    limit: f64,
) -> Seen<Best>
    requires { (length mesh.now ≡ length marks.old * 9) × (length boxes.now ≡ length marks.old * 5)
        × Walkable starts.now members.now (length marks.old) columns p.x0 p.x1 p.y0 p.y1
        × Crested starts.now members.now boxes.now columns rows crests.now × (p.x1 ≤ columns) × (p.y1 ≤ rows)
        × Room stamp (seen marks.old s) × Fair stamp (disk_step mesh.now boxes.now q) (seen marks.old s) }
    ensures { Passed (disk_step mesh.now boxes.now q) s.best
        (block starts.now members.now columns p.x0 p.x1 p.y0 p.y1) limit result.best
        × (length marks.new ≡ length marks.old) × NoneAbove stamp marks.new }
{
    let x0 = p.x0;
    let x1 = p.x1;
    let y0 = p.y0;
    let y1 = p.y1;
    let mut found = s;
    for y in y0..y1 {
        let best = found.best;
        if best.height > limit {
            return found;
        }
        for x in x0..x1 {
            found = pass_cell(
                mesh, starts, members, boxes, crests, marks, stamp, columns, x, y, q, found,
            );
        }
    }
    found
}

// The height under a disk of radius r swept from p to q, over the table of crests; the walk is left once the best is above the limit.
pub fn swept_until(
    mesh: &[f64],
    h: Header,
    starts: &[u32],
    members: &[u32],
    boxes: &[f64],
    crests: &[f64],
    marks: &mut [u32],
    stamp: u32,
    px: f64,
    py: f64,
    qx: f64,
    qy: f64,
    r: f64,
    limit: f64,
) -> Swept
    requires { (length mesh.now ≡ length marks.old * 9) × (length boxes.now ≡ length marks.old * 5) × (length marks.old ≤ 65536)
        × Sweepable (index_of mesh.now h starts.now members.now boxes.now) (length marks.old) (patch_for h (sweep px py qx qy r))
        × Crested starts.now members.now boxes.now h.columns h.rows crests.now × NoneAbove stamp marks.old }
    ensures { Passed (disk_step mesh.now boxes.now (capsule_for h (sweep px py qx qy r))) (at_floor h.floor)
        (within (index_of mesh.now h starts.now members.now boxes.now) (patch_for h (sweep px py qx qy r)))
        limit result.best
        × (length marks.new ≡ length marks.old) × NoneAbove result.stamp marks.new }
{
    let columns = h.columns;
    let rows = h.rows;
    let floor = h.floor;
    let p = query::patch_of(h, px, py, qx, qy, r);
    let q = capsule::capsule_of(px, py, qx, qy, r, h.eps);
    let next = walk::next_stamp(marks, stamp);
    let best = Best {
        height: floor,
        triangle: 0,
        kind: 0,
        which: 0,
    };
    let found = pass(
        mesh,
        starts,
        members,
        boxes,
        crests,
        marks,
        next,
        columns,
        rows,
        p,
        q,
        Seen { count: 0, best },
        limit,
    );
    let highest = found.best;
    Swept {
        best: highest,
        count: found.count,
        stamp: next,
    }
}
