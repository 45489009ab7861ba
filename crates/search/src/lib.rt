// The search over all levels of a table: the rows of each, one after the other. Every second row that has a stretch is walked back.
#![tactic(auto)]

ghost use Rattle.std.specs.Prelude.{false, [], ◌≡◌, ◌*◌, ◌≤◌, ◌<◌, length};
ghost use Rattle.grid.specs.Index.{index_of};
ghost use Rattle.crests.specs.Inside.{Crested};
ghost use Rattle.parameters.specs.Terms.{too_fine, any_of};
ghost use Rattle.parameters.specs.Inside.{levels_in};
ghost use Rattle.probe.specs.Probe.{height_under};
ghost use Rattle.probe.specs.Inside.{Askable, Marked};
ghost use Rattle.row_runs.specs.Search.{row_found, level_found, levels_found};
ghost use Rattle.row_runs.specs.Inside.{Coarse};
ghost use Rattle.search.specs.Inside.{from, Takes, Searched};

use grid::Header;
use halving::Stand;
use levels::Level;
use parameters::Parameters;
use probe::Aim;
use rows::{Axis, Lane};
use runs::Tally;

// Where the search stands: how many rows have a stretch, and what is taken of them.
#[derive(Clone, Copy)]
pub struct Swept {
    pub rows: usize,
    pub stand: Stand,
}

// What a search counts: the rows that have a stretch, and what was made of their pieces.
#[derive(Clone, Copy)]
pub struct Counted {
    pub rows: usize,
    pub tally: Tally,
}

// The levels of a table searched, one after the other, from nothing; the joined runs written to the table of runs.
pub fn search_levels(
    mesh: &[f64],
    h: Header,
    starts: &[u32],
    members: &[u32],
    boxes: &[f64],
    marks: &mut [u32],
    runs: &mut [f64],
    p: Parameters,
    axis: Axis,
    levels: &[f64],
    count: usize,
) -> Counted
    requires { Askable (index_of mesh.now h starts.now members.now boxes.now) × Marked h.n 0 marks.old × (count * 5 ≤ length levels.now)
        × (count ≤ 65536) × (any_of (too_fine p axis h.r) (levels_in levels.now 0 count) ≡ false) }
    ensures { Searched runs.old (levels_found
        (height_under (index_of mesh.now h starts.now members.now boxes.now)) p axis h.r
        (record { rows = 0; pieces = [] })
        (levels_in levels.now 0 count)) runs.new result × (length marks.new ≡ h.n) }
{
    let mut crests = [crests::DEEPEST; 8192];
    crests::fill(h, starts, members, boxes, &mut crests);
    let stand = Stand {
        tally: runs::begin(),
        stamp: 0,
    };
    let mut s = Swept { rows: 0, stand };
    for m in 0..count {
        s = search_level(
            mesh,
            h,
            starts,
            members,
            boxes,
            &crests,
            marks,
            runs,
            p,
            axis,
            levels::level_at(levels, m),
            s,
        );
    }
    let rows = s.rows;
    let end = s.stand;
    let open = end.tally;
    let tally = runs::close(runs, open);
    Counted { rows, tally }
}

// A level taken: its heights are asked from just under it where that decides nothing otherwise.
fn search_level(
    mesh: &[f64],
    h: Header,
    starts: &[u32],
    members: &[u32],
    boxes: &[f64],
    crests: &[f64],
    marks: &mut [u32],
    runs: &mut [f64],
    p: Parameters,
    axis: Axis,
    level: Level,
    s: Swept,
) -> Swept
    requires { Askable (index_of mesh.now h starts.now members.now boxes.now) × Marked h.n s.stand.stamp marks.old
        × Coarse p axis h.r level
        × (s.rows ≤ 4294967296)
        × Crested starts.now members.now boxes.now h.columns h.rows crests.now }
    ensures { Takes runs.old s
        (level_found (height_under (index_of mesh.now h starts.now members.now boxes.now)) p
        axis h.r (from s) level)
        runs.new result × Marked h.n result.stand.stamp marks.new }
{
    let a = row_runs::aim_of(p, h.r, level);
    let l = row_runs::lane_of(p, axis, h.r, level, 0);
    let rows = rows::intervals(l.spread, p.stepover);
    let g = start::header_for(
        mesh,
        h,
        boxes,
        a,
        level.z + p.stock_to_leave,
        rows,
        l.samples,
    );
    search_rows(
        mesh, g, starts, members, boxes, crests, marks, runs, p, axis, level, s,
    )
}

// The rows of a level taken, from the first to the last, over the header's floor.
fn search_rows(
    mesh: &[f64],
    h: Header,
    starts: &[u32],
    members: &[u32],
    boxes: &[f64],
    crests: &[f64],
    marks: &mut [u32],
    runs: &mut [f64],
    p: Parameters,
    axis: Axis,
    level: Level,
    s: Swept,
) -> Swept
    requires { Askable (index_of mesh.now h starts.now members.now boxes.now) × Marked h.n s.stand.stamp marks.old
        × Coarse p axis h.r level
        × (s.rows ≤ 4294967296)
        × Crested starts.now members.now boxes.now h.columns h.rows crests.now }
    ensures { Takes runs.old s
        (level_found (height_under (index_of mesh.now h starts.now members.now boxes.now)) p
        axis h.r (from s) level)
        runs.new result × Marked h.n result.stand.stamp marks.new }
{
    let r = h.r;
    let a = row_runs::aim_of(p, r, level);
    let rows = rows::intervals(rows::spread_of(axis, r, level), p.stepover) + 1;
    let mut e = s;
    for row in 0..rows {
        e = search_row(
            mesh,
            h,
            starts,
            members,
            boxes,
            crests,
            marks,
            runs,
            a,
            row_runs::lane_of(p, axis, r, level, row),
            e,
        );
    }
    e
}

// A row taken: every second row that has a stretch is walked back.
fn search_row(
    mesh: &[f64],
    h: Header,
    starts: &[u32],
    members: &[u32],
    boxes: &[f64],
    crests: &[f64],
    marks: &mut [u32],
    runs: &mut [f64],
    a: Aim,
    l: Lane,
    s: Swept,
) -> Swept
    requires { Askable (index_of mesh.now h starts.now members.now boxes.now) × Marked h.n s.stand.stamp marks.old × (l.samples ≤ 65535)
        × (s.rows < 8589934592)
        × Crested starts.now members.now boxes.now h.columns h.rows crests.now }
    ensures { Takes runs.old s
        (row_found (height_under (index_of mesh.now h starts.now members.now boxes.now)) a (from s) l)
        runs.new result × Marked h.n result.stand.stamp marks.new }
{
    let rows = s.rows;
    let begin = s.stand;
    let n = rows + 1;
    let w = row_runs::walk_row(
        mesh,
        h,
        starts,
        members,
        boxes,
        crests,
        marks,
        runs,
        a,
        l,
        n % 2 != 0,
        begin,
    );
    let stand = w.stand;
    if w.some {
        return Swept { rows: n, stand };
    }
    Swept { rows, stand }
}
