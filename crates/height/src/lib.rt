// The swept-disk height: the highest part point under a disk swept from p to q, at least the floor.
#![tactic(auto)]

ghost use Rattle.std.specs.Prelude.{◌≡◌, ◌*◌, ◌≤◌, length, ⊤};
ghost use Rattle.walk.specs.Walk.{next_stamp};
ghost use Rattle.walk.specs.Inside.{Tabled};
ghost use Rattle.grid.specs.Index.{index_of};
ghost use Rattle.ask.specs.Ask.{ended, answer_told};
ghost use Rattle.height.specs.Demand.{DiskPromise};
ghost use Rattle.height.specs.Sweep.{sweep, patch_for, disk_step, capsule_walk, sweep_walk};
ghost use Rattle.height.specs.Inside.{walk_left, Sweepable};
ghost use Rattle.height.specs.Height.{are_points, is_sweep, max_height_of};

use ask::Answer;
use capsule::Capsule;
use grid::Header;
use plane::Best;
use query::Patch;
use refusals::Refusal;
use walk::{Look, Seen};

// What the walk of a sweep found, how many triangles it looked at, and its stamp.
#[derive(Clone, Copy)]
pub struct Swept {
    pub best: Best,
    pub count: u32,
    pub stamp: u32,
}

// The highest part point under the disk of radius r swept from p to q, or why the question is refused.
pub fn max_height(
    mesh: &[f64],
    h: Header,
    starts: &[u32],
    members: &[u32],
    boxes: &[f64],
    marks: &mut [u32],
    stamp: u32,
    px: f64,
    py: f64,
    qx: f64,
    qy: f64,
    r: f64,
) -> Result<Answer, Refusal>
    ensures marks_after { ended (answer_told result stamp) marks.new
        ≡ max_height_of (index_of mesh.now h starts.now members.now boxes.now) marks.old stamp
        (sweep px py qx qy r) }
    ensures disk_promise { DiskPromise (index_of mesh.now h starts.now members.now boxes.now)
        marks.old stamp (sweep px py qx qy r) (answer_told result stamp) }
{
    let p = query::patch_of(h, px, py, qx, qy, r);
    let asked = is_sweep(px, py, qx, qy, r);
    let mut list = [0u32; 2048];
    let count = ask::refusal(
        mesh, h, starts, members, boxes, marks, stamp, p, asked, true, &mut list,
    )?;
    let listed = count <= 2048;
    let ends = [0u32, count];
    let s = sweep_in(
        mesh,
        h,
        walk::one_of(listed, &ends, starts),
        walk::one_of(listed, &list, members),
        boxes,
        marks,
        stamp,
        capsule::capsule_of(px, py, qx, qy, r, h.eps),
        query::narrowed(listed, p),
    );
    let best = s.best;
    Ok(Answer {
        height: best.height,
        count: s.count,
        stamp: s.stamp,
        triangle: best.triangle,
        kind: best.kind,
        which: best.which,
    })
}

// The same walk where nothing is left to refuse.
pub fn swept_height(
    mesh: &[f64],
    h: Header,
    starts: &[u32],
    members: &[u32],
    boxes: &[f64],
    marks: &mut [u32],
    stamp: u32,
    px: f64,
    py: f64,
    qx: f64,
    qy: f64,
    r: f64,
) -> Swept
    requires { (length mesh.now ≡ length marks.old * 9) × (length marks.old ≤ 65536)
        × Sweepable (index_of mesh.now h starts.now members.now boxes.now) (length marks.old) (patch_for h (sweep px py qx qy r))
        × (length boxes.now ≡ length marks.old * 5) }
    ensures { (walk_left result marks.new
        ≡ sweep_walk (index_of mesh.now h starts.now members.now boxes.now) marks.old stamp
        (sweep px py qx qy r))
        × (result.stamp ≡ next_stamp stamp) }
{
    let p = query::patch_of(h, px, py, qx, qy, r);
    sweep_in(
        mesh,
        h,
        starts,
        members,
        boxes,
        marks,
        stamp,
        capsule::capsule_of(px, py, qx, qy, r, h.eps),
        p,
    )
}

// Whether the numbers of a sweep are in their ranges.
fn is_sweep(px: f64, py: f64, qx: f64, qy: f64, r: f64) -> bool
    ensures { result ≡ is_sweep (sweep px py qx qy r) }
{
    are_points(px, py, qx, qy) && plane::is_radius(r)
}

// Whether the coordinates of its ends are.
fn are_points(px: f64, py: f64, qx: f64, qy: f64) -> bool
    ensures { result ≡ are_points px py qx qy }
{
    plane::is_point(px) && (plane::is_point(py) && (plane::is_point(qx) && plane::is_point(qy)))
}

// The walk of a sweep over the cells p: it begins at the floor, with the next stamp.
fn sweep_in(
    mesh: &[f64],
    h: Header,
    starts: &[u32],
    members: &[u32],
    boxes: &[f64],
    marks: &mut [u32],
    stamp: u32,
    q: Capsule,
    p: Patch,
) -> Swept
    requires { (length mesh.now ≡ length marks.old * 9) × (length marks.old ≤ 65536)
        × Sweepable (index_of mesh.now h starts.now members.now boxes.now) (length marks.old) p
        × (length boxes.now ≡ length marks.old * 5) }
    ensures { (walk_left result marks.new
        ≡ capsule_walk (index_of mesh.now h starts.now members.now boxes.now) marks.old stamp q p)
        × (result.stamp ≡ next_stamp stamp) }
{
    let columns = h.columns;
    let first = Seen {
        count: 0,
        best: Best {
            height: h.floor,
            triangle: 0,
            kind: 0,
            which: 0,
        },
    };
    let next = walk::next_stamp(marks, stamp);
    let disk = Disk { mesh, boxes, q };
    let found = walk::visit(
        &disk, starts, members, marks, next, columns, p.x0, p.x1, p.y0, p.y1, first,
    );
    let best = found.best;
    Swept {
        best,
        count: found.count,
        stamp: next,
    }
}

// The sweep's question at a triangle: the tables of the part, and the capsule.
#[derive(Clone, Copy)]
pub struct Disk<'a> {
    pub mesh: &'a [f64],
    pub boxes: &'a [f64],
    pub q: Capsule,
}

impl<'a> Look for Disk<'a> {
    type Found = Best;

    ghost fits = { λ d. Tabled d.mesh.now d.boxes.now };

    ghost sane = { λ d count best. ⊤ };

    ghost step = { λ d. disk_step d.mesh.now d.boxes.now d.q };

    // The best so far with triangle i.
    #[inline]
    fn look(&self, _: u32, best: Best, i: u32) -> Best {
        let b = grid::box_at(self.boxes, i as usize);
        if b.top <= best.height {
            return best;
        }
        plane::raise_by(
            capsule::highest_above(
                self.q,
                plane::triangle_at(self.mesh, i as usize),
                best.height,
            ),
            i,
            best,
        )
    }
}
