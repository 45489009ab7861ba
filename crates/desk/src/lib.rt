// What C and Rust call of the index and of heights: include/mandrikelo.h declares these functions. Each hands its arguments to the library and
// lays the answer into fixed arrays; the contract is the library's own, and asks nothing of the caller.
#![tactic(auto)]

ghost use Rattle.std.specs.Prelude.{◌≡◌};
ghost use Rattle.handed.specs.Handed.{index_from};
ghost use Rattle.desk.specs.Doors.{built_left, built_left_by, height_left, height_left_by, answer_from, Laid};
ghost use Rattle.ask.specs.Ask.{answer_told};
ghost use Rattle.grid.specs.Build.{build_of};
ghost use Rattle.grid.specs.Index.{BuildPromise};
ghost use Rattle.height.specs.Height.{max_height_of};
ghost use Rattle.height.specs.Sweep.{sweep};
ghost use Rattle.height.specs.Demand.{DiskPromise};
ghost use Rattle.tips.specs.Contact.{max_bull_of, BullPromise, max_sections_of, SectionsPromise};

use ask::Answer;
use refusals::Refusal;

// The index of a mesh: starts, members and boxes get its tables, measures and sizes its header; after 4 bad holds the triangle and which of its nine numbers
// came first, else 0 and 0.
#[unsafe(no_mangle)]
pub extern "C" fn mandrikelo_build(
    mesh: &[f64],
    floor: f64,
    r: f64,
    starts: &mut [u32],
    members: &mut [u32],
    boxes: &mut [f64],
    measures: &mut [f64; 6],
    sizes: &mut [u32; 3],
    bad: &mut [u32; 2],
) -> u32
    ensures bad_after { built_left result starts.new members.new boxes.new measures.new sizes.new bad.new
        ≡ built_left_by (build_of mesh.now floor r starts.old members.old boxes.old) }
    ensures build_promise { BuildPromise
        (index_from mesh.now measures.new sizes.new starts.new members.new boxes.new) result }
{
    match grid::build(mesh, floor, r, starts, members, boxes) {
        Ok(h) => {
            *measures = [h.origin_x, h.origin_y, h.cell, h.floor, h.eps, h.r];
            *sizes = [h.n as u32, h.columns as u32, h.rows as u32];
            *bad = [0, 0];
            0
        }
        Err(refusal) => {
            let place = refusal.told();
            *measures = [0.0, 0.0, 0.0, 0.0, 0.0, 0.0];
            *sizes = [0, 0, 0];
            *bad = [place / 9, place % 9];
            refusal.number()
        }
    }
}

// The highest part point under the disk of radius r swept from (px, py) to (qx, qy).
#[unsafe(no_mangle)]
pub extern "C" fn mandrikelo_max_height(
    mesh: &[f64],
    measures: &[f64; 6],
    sizes: &[u32; 3],
    starts: &[u32],
    members: &[u32],
    boxes: &[f64],
    marks: &mut [u32],
    stamp: u32,
    px: f64,
    py: f64,
    qx: f64,
    qy: f64,
    r: f64,
    found: &mut [f64; 1],
    counts: &mut [u32; 2],
    touched: &mut [u32; 3],
) -> u32
    ensures touched_after { height_left result marks.new found.new counts.new touched.new
        ≡ height_left_by (max_height_of
        (index_from mesh.now measures.now sizes.now starts.now members.now
        boxes.now)
        marks.old stamp (sweep px py qx qy r)) }
    ensures disk_promise { DiskPromise
        (index_from mesh.now measures.now sizes.now starts.now members.now
        boxes.now)
        marks.old stamp (sweep px py qx qy r)
        (answer_from result found.new counts.new touched.new) }
{
    let a = height::max_height(
        mesh,
        handed::header_from(measures, sizes),
        starts,
        members,
        boxes,
        marks,
        stamp,
        px,
        py,
        qx,
        qy,
        r,
    );
    lay(a, stamp, found, counts, touched)
}

// The highest tip of a bull-nose cutter over (px, py).
#[unsafe(no_mangle)]
pub extern "C" fn mandrikelo_max_bull(
    mesh: &[f64],
    measures: &[f64; 6],
    sizes: &[u32; 3],
    starts: &[u32],
    members: &[u32],
    boxes: &[f64],
    marks: &mut [u32],
    stamp: u32,
    px: f64,
    py: f64,
    r: f64,
    rc: f64,
    found: &mut [f64; 1],
    counts: &mut [u32; 2],
    touched: &mut [u32; 3],
) -> u32
    ensures touched_after { height_left result marks.new found.new counts.new touched.new
        ≡ height_left_by (max_bull_of
        (index_from mesh.now measures.now sizes.now starts.now members.now
        boxes.now)
        marks.old stamp (record { x = px; y = py; r = r; rc = rc })) }
    ensures bull_promise { BullPromise
        (index_from mesh.now measures.now sizes.now starts.now members.now
        boxes.now)
        marks.old stamp (record { x = px; y = py; r = r; rc = rc })
        (answer_from result found.new counts.new touched.new) }
{
    let a = tips::max_bull(
        mesh,
        handed::header_from(measures, sizes),
        starts,
        members,
        boxes,
        marks,
        stamp,
        px,
        py,
        r,
        rc,
    );
    lay(a, stamp, found, counts, touched)
}

// The highest tip of a tool over (px, py), its sections four numbers each.
#[unsafe(no_mangle)]
pub extern "C" fn mandrikelo_max_sections(
    mesh: &[f64],
    measures: &[f64; 6],
    sizes: &[u32; 3],
    starts: &[u32],
    members: &[u32],
    boxes: &[f64],
    marks: &mut [u32],
    stamp: u32,
    px: f64,
    py: f64,
    sections: &[f64],
    found: &mut [f64; 1],
    counts: &mut [u32; 2],
    touched: &mut [u32; 3],
) -> u32
    ensures touched_after { height_left result marks.new found.new counts.new touched.new
        ≡ height_left_by (max_sections_of
        (index_from mesh.now measures.now sizes.now starts.now members.now
        boxes.now)
        marks.old stamp px py sections.now) }
    ensures sections_promise { SectionsPromise
        (index_from mesh.now measures.now sizes.now starts.now members.now
        boxes.now)
        marks.old stamp px py sections.now
        (answer_from result found.new counts.new touched.new) }
{
    let a = tips::max_sections(
        mesh,
        handed::header_from(measures, sizes),
        starts,
        members,
        boxes,
        marks,
        stamp,
        px,
        py,
        sections,
    );
    lay(a, stamp, found, counts, touched)
}

// Lays an answer into C's arrays: a refusal leaves zeros and the stamp as handed.
fn lay(
    a: Result<Answer, Refusal>,
    stamp: u32,
    found: &mut [f64; 1],
    counts: &mut [u32; 2],
    touched: &mut [u32; 3],
) -> u32
    ensures { Laid result found.new counts.new touched.new (answer_told a stamp) }
{
    match a {
        Ok(a) => {
            *found = [a.height];
            *counts = [a.count, a.stamp];
            *touched = [a.triangle, a.kind, a.which];
            0
        }
        Err(refusal) => {
            *found = [0.0];
            *counts = [0, stamp];
            *touched = [0, 0, 0];
            refusal.number()
        }
    }
}
