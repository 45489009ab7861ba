// The search for runs: each row of each level is sampled, its stretches on the level are runs, and a run that is not clear is halved.
#![tactic(auto)]

ghost use Rattle.std.specs.Prelude.{◌≡◌, map, true, false, ◌+◌, ◌*◌, ◌≤◌, ◌<◌, length};
ghost use Rattle.grid.specs.Index.{index_of};
ghost use Rattle.crests.specs.Inside.{Crested};
ghost use Rattle.rows.specs.Stretches.{stretches_of};
ghost use Rattle.probe.specs.Probe.{height_under, on_level};
ghost use Rattle.probe.specs.Inside.{Askable, Marked};
ghost use Rattle.row_runs.specs.Search.{aim_of, lane_of};
ghost use Rattle.row_runs.specs.Inside.{number_of, numbered, Ended, Advanced, Trodden};

use grid::Header;
use halving::Stand;
use levels::Level;
use parameters::Parameters;
use probe::Aim;
use rows::{Axis, Lane};
use runs::Run;

// Where a row stands: how many samples in front of the next are on the level, whether it has had a stretch, and what is taken.
#[derive(Clone, Copy)]
pub struct Walked {
    pub k: usize,
    pub some: bool,
    pub stand: Stand,
}

// Sample j of a row that is walked forward or back.
fn number(forward: bool, samples: usize, j: usize) -> usize
    requires { j ≤ samples }
    ensures { result ≡ number_of forward samples j }
{
    if forward { j } else { samples - j }
}

// The stretch in front of sample j has ended: it is taken, if it has two samples or more.
fn end_stretch(
    mesh: &[f64],
    h: Header,
    starts: &[u32],
    members: &[u32],
    boxes: &[f64],
    crests: &[f64],
    marks: &mut [u32],
    runs: &mut [f64],
    a: Aim,
    l: Lane,
    forward: bool,
    j: usize,
    w: Walked,
) -> Walked
    requires { Askable (index_of mesh.now h starts.now members.now boxes.now) × Marked h.n w.stand.stamp marks.old × (w.k ≤ j) ×
        (j ≤ l.samples + 1)
        × Crested starts.now members.now boxes.now h.columns h.rows crests.now }
    ensures { Ended (height_under (index_of mesh.now h starts.now members.now boxes.now)) a l forward j w
        runs.old result runs.new × Marked h.n result.stand.stamp marks.new }
{
    let k = w.k;
    let some = w.some;
    let s = w.stand;
    if k <= 1 {
        return Walked {
            k: 0,
            some,
            stand: s,
        };
    }
    let samples = l.samples;
    let first = number(forward, samples, j - k);
    let last = number(forward, samples, j - 1);
    let stand = halving::halve(
        mesh,
        h,
        starts,
        members,
        boxes,
        crests,
        marks,
        runs,
        a,
        rows::run_between(l, first, last),
        s,
    );
    Walked {
        k: 0,
        some: true,
        stand,
    }
}

// One sample more of a row: on the level it makes the stretch longer, off it the stretch ends.
fn advance(
    mesh: &[f64],
    h: Header,
    starts: &[u32],
    members: &[u32],
    boxes: &[f64],
    crests: &[f64],
    marks: &mut [u32],
    runs: &mut [f64],
    a: Aim,
    l: Lane,
    forward: bool,
    j: usize,
    w: Walked,
) -> Walked
    requires { Askable (index_of mesh.now h starts.now members.now boxes.now) × Marked h.n w.stand.stamp marks.old × (w.k ≤ j)
        × (j ≤ l.samples) × (l.samples ≤ 65535)
        × Crested starts.now members.now boxes.now h.columns h.rows crests.now }
    ensures { Advanced (height_under (index_of mesh.now h starts.now members.now boxes.now)) a l forward j w
        runs.old result runs.new × Marked h.n result.stand.stamp marks.new }
{
    let s = w.stand;
    let k = w.k;
    let some = w.some;
    let t = s.tally;
    let samples = l.samples;
    let o = probe::sample(
        mesh,
        h,
        starts,
        members,
        boxes,
        crests,
        marks,
        s.stamp,
        a,
        l,
        number(forward, samples, j),
    );
    let stand = Stand {
        tally: t,
        stamp: o.stamp,
    };
    if o.on {
        return Walked {
            k: k + 1,
            some,
            stand,
        };
    }
    end_stretch(
        mesh,
        h,
        starts,
        members,
        boxes,
        crests,
        marks,
        runs,
        a,
        l,
        forward,
        j,
        Walked { k, some, stand },
    )
}

// A row walked forward or back: its stretches are taken.
pub fn walk_row(
    mesh: &[f64],
    h: Header,
    starts: &[u32],
    members: &[u32],
    boxes: &[f64],
    crests: &[f64],
    marks: &mut [u32],
    runs: &mut [f64],
    a: Aim,
    l: Lane,
    forward: bool,
    s: Stand,
) -> Walked
    requires { Askable (index_of mesh.now h starts.now members.now boxes.now) × Marked h.n s.stamp marks.old × (l.samples ≤ 65535)
        × Crested starts.now members.now boxes.now h.columns h.rows crests.now }
    ensures { Trodden (height_under (index_of mesh.now h starts.now members.now boxes.now)) a l
        (map (numbered forward l.samples)
        (stretches_of (λ j. on_level (height_under (index_of mesh.now h starts.now members.now boxes.now)) a l
        (number_of forward l.samples j)) l.samples)) runs.old s runs.new result × Marked h.n result.stand.stamp marks.new }
{
    let samples = l.samples;
    let mut w = Walked {
        k: 0,
        some: false,
        stand: s,
    };
    for j in 0..samples + 1 {
        w = advance(
            mesh, h, starts, members, boxes, crests, marks, runs, a, l, forward, j, w,
        );
    }
    end_stretch(
        mesh,
        h,
        starts,
        members,
        boxes,
        crests,
        marks,
        runs,
        a,
        l,
        forward,
        samples + 1,
        w,
    )
}

// What a level's rows are tested against.
pub fn aim_of(p: Parameters, r: f64, level: Level) -> Aim
    ensures { result ≡ aim_of p r level }
{
    Aim {
        level: level.z,
        level_tolerance: p.level_tolerance,
        tolerance: p.tolerance,
        least: rows::step(p.stepover, r) / 16.0,
    }
}

// Row number `row` of a level.
pub fn lane_of(p: Parameters, axis: Axis, r: f64, level: Level, row: usize) -> Lane
    ensures { result ≡ lane_of p axis r level row }
{
    let spread = rows::spread_of(axis, r, level);
    let samples = rows::samples(spread, rows::step(p.stepover, r));
    let cross = rows::cross(spread, rows::intervals(spread, p.stepover), row);
    Lane {
        axis,
        spread,
        samples,
        cross,
        z: level.z + p.stock_to_leave,
    }
}
