// Halving: the pieces of one run, kept or dropped, over a stack of 33 entries.
#![tactic(auto)]

ghost use Rattle.std.specs.Prelude.{◌≡◌};
ghost use Rattle.grid.specs.Index.{index_of};
ghost use Rattle.crests.specs.Inside.{Crested};
ghost use Rattle.runs.specs.Pieces.{pieces_of};
ghost use Rattle.runs.specs.Chains.{Whole};
ghost use Rattle.runs.specs.Inside.{work, taken_all};
ghost use Rattle.probe.specs.Probe.{height_under, clear};
ghost use Rattle.probe.specs.Inside.{Askable, Marked};

use grid::Header;
use probe::Aim;
use runs::{Run, Tally};

// Where the search stands: what it has taken, and its stamp.
#[derive(Clone, Copy)]
pub struct Stand {
    pub tally: Tally,
    pub stamp: u32,
}

// The pieces of a run taken, one after the other, none of it lost.
// A stack holds where the pieces that wait end, the next one on top, and how often each may still be halved.
pub fn halve(
    mesh: &[f64],
    h: Header,
    starts: &[u32],
    members: &[u32],
    boxes: &[f64],
    crests: &[f64],
    marks: &mut [u32],
    runs: &mut [f64],
    a: Aim,
    r: Run,
    s: Stand,
) -> Stand
    requires { Askable (index_of mesh.now h starts.now members.now boxes.now) × Marked h.n s.stamp marks.old
        × Crested starts.now members.now boxes.now h.columns h.rows crests.now }
    ensures { (work runs.new result.tally
        ≡ taken_all (work runs.old s.tally)
        (pieces_of (clear (height_under (index_of mesh.now h starts.now members.now boxes.now)) a) a.least 32 r))
        × Marked h.n result.stamp marks.new
        × Whole (clear (height_under (index_of mesh.now h starts.now members.now boxes.now)) a) r
        (pieces_of (clear (height_under (index_of mesh.now h starts.now members.now boxes.now)) a) a.least 32 r) }
{
    let z = r.z;
    let mut bx = [0.0; 33];
    let mut by = [0.0; 33];
    let mut left = [0u32; 33];
    bx[0] = r.bx;
    by[0] = r.by;
    left[0] = 32;
    let mut ax = r.ax;
    let mut ay = r.ay;
    let mut top: usize = 1;
    let mut tally = s.tally;
    let mut stamp = s.stamp;
    while top > 0 {
        let t = top - 1;
        let piece = Run {
            ax,
            ay,
            bx: bx[t],
            by: by[t],
            z,
        };
        let k = left[t];
        let j = probe::judge(
            mesh, h, starts, members, boxes, crests, marks, stamp, a, piece, k,
        );
        stamp = j.stamp;
        if j.split {
            let half = runs::first_half(piece);
            left[t] = k - 1;
            bx[top] = half.bx;
            by[top] = half.by;
            left[top] = k - 1;
            top += 1;
            continue;
        }
        tally = runs::take(runs, tally, piece, j.kept);
        ax = piece.bx;
        ay = piece.by;
        top = t;
    }
    Stand { tally, stamp }
}
