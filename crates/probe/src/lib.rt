// Heights asked along rows, with the search's own marks: whether a sample is on the level, and what becomes of a piece of a run.
#![tactic(auto)]

ghost use Rattle.std.specs.Prelude.{◌≡◌, true};
ghost use Rattle.grid.specs.Index.{index_of};
ghost use Rattle.crests.specs.Inside.{Crested};
ghost use Rattle.probe.specs.Probe.{height_under, on_level, clear};
ghost use Rattle.probe.specs.Inside.{Askable, Marked, splits_of, Decides, BeyondLevel};

use grid::Header;
use rows::Lane;
use runs::Run;

// What a level's rows are tested against: its z, the tolerances, and the length at which halving stops.
#[derive(Clone, Copy)]
pub struct Aim {
    pub level: f64,
    pub level_tolerance: f64,
    pub tolerance: f64,
    pub least: f64,
}

// A height, and the stamp after its walk.
#[derive(Clone, Copy)]
pub struct Asked {
    pub height: f64,
    pub stamp: u32,
}

// Whether a sample is on the level, and the stamp after its walk.
#[derive(Clone, Copy)]
pub struct Reading {
    pub on: bool,
    pub stamp: u32,
}

// What becomes of a piece, and the stamp after its walk.
#[derive(Clone, Copy)]
pub struct Judged {
    pub split: bool,
    pub kept: bool,
    pub stamp: u32,
}

// The height under a run, or one that is above the limit where that is.
fn ask(
    mesh: &[f64],
    h: Header,
    starts: &[u32],
    members: &[u32],
    boxes: &[f64],
    crests: &[f64],
    marks: &mut [u32],
    stamp: u32,
    r: Run,
    limit: f64,
) -> Asked
    requires { Askable (index_of mesh.now h starts.now members.now boxes.now) × Marked h.n stamp marks.old
        × Crested starts.now members.now boxes.now h.columns h.rows crests.now }
    ensures { Decides limit (height_under (index_of mesh.now h starts.now members.now boxes.now) r) result.height
        × Marked h.n result.stamp marks.new }
{
    let s = crests::swept_until(
        mesh, h, starts, members, boxes, crests, marks, stamp, r.ax, r.ay, r.bx, r.by, h.r, limit,
    );
    let best = s.best;
    Asked {
        height: best.height,
        stamp: s.stamp,
    }
}

// Whether the tool rests on the level at sample k.
pub fn sample(
    mesh: &[f64],
    h: Header,
    starts: &[u32],
    members: &[u32],
    boxes: &[f64],
    crests: &[f64],
    marks: &mut [u32],
    stamp: u32,
    a: Aim,
    l: Lane,
    k: usize,
) -> Reading
    requires { Askable (index_of mesh.now h starts.now members.now boxes.now) × Marked h.n stamp marks.old
        × Crested starts.now members.now boxes.now h.columns h.rows crests.now }
    ensures { (result.on ≡ on_level (height_under (index_of mesh.now h starts.now members.now boxes.now)) a l k)
        × Marked h.n result.stamp marks.new }
{
    let limit = limit_over(a.level, a.level_tolerance);
    let t = ask(
        mesh,
        h,
        starts,
        members,
        boxes,
        crests,
        marks,
        stamp,
        rows::run_between(l, k, k),
        limit,
    );
    Reading {
        on: numbers::abs(t.height - a.level) <= a.level_tolerance,
        stamp: t.stamp,
    }
}

// A limit above which no sample is on the level: infinite where twice the tolerance does not make one.
fn limit_over(level: f64, tolerance: f64) -> f64
    ensures { BeyondLevel level tolerance result }
{
    let l = level + 2.0 * tolerance;
    if is_beyond(level, tolerance, l) {
        return l;
    }
    f64::from_bits(0x7ff0_0000_0000_0000)
}

// Whether l is such a limit; a false says nothing.
fn is_beyond(level: f64, tolerance: f64, l: f64) -> bool
    ensures { result ≡ true → BeyondLevel level tolerance l }
{
    let d = l - level;
    if d > tolerance {
        return d <= 3e6;
    }
    false
}

// What becomes of a piece with `left` halvings left.
pub fn judge(
    mesh: &[f64],
    h: Header,
    starts: &[u32],
    members: &[u32],
    boxes: &[f64],
    crests: &[f64],
    marks: &mut [u32],
    stamp: u32,
    a: Aim,
    r: Run,
    left: u32,
) -> Judged
    requires { Askable (index_of mesh.now h starts.now members.now boxes.now) × Marked h.n stamp marks.old
        × Crested starts.now members.now boxes.now h.columns h.rows crests.now }
    ensures { (result.kept ≡ clear (height_under (index_of mesh.now h starts.now members.now boxes.now)) a r)
        × (result.split ≡ splits_of result.kept a.least left r) × Marked h.n result.stamp marks.new }
{
    let limit = r.z + a.tolerance;
    let t = ask(
        mesh, h, starts, members, boxes, crests, marks, stamp, r, limit,
    );
    let kept = t.height <= limit;
    Judged {
        split: splits(kept, a.least, left, r),
        kept,
        stamp: t.stamp,
    }
}

// Whether a piece with `left` halvings left is halved.
fn splits(clear: bool, least: f64, left: u32, r: Run) -> bool
    ensures { result ≡ splits_of clear least left r }
{
    if clear {
        return false;
    }
    if left == 0 {
        return false;
    }
    !(runs::length(r) <= least)
}
