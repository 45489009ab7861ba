// Runs: what the run search keeps is joined where it touches and written to a lent table; what it drops is added up.
#![tactic(auto)]

ghost use Rattle.std.specs.Prelude.{◌≡◌, ◌&&◌, ◌+◌, ◌<◌, true};
ghost use Rattle.runs.specs.Runs.{length_of, touches_of, lengthened};
ghost use Rattle.runs.specs.Pieces.{first_half};
ghost use Rattle.runs.specs.Inside.{work, on_to, closed_of, kept_by, left_by, taken_by, begun};

// A straight cut at height z, from a to b.
#[derive(Clone, Copy)]
pub struct Run {
    pub ax: f64,
    pub ay: f64,
    pub bx: f64,
    pub by: f64,
    pub z: f64,
}

// What was made of the pieces so far: the run that later ones may join, if there is one; how many are written; their length and that of what was dropped.
#[derive(Clone, Copy)]
pub struct Tally {
    pub some: bool,
    pub last: Run,
    pub count: usize,
    pub cut: f64,
    pub dropped: f64,
}

// Nothing yet.
pub fn begin() -> Tally
    ensures { result ≡ begun }
{
    let last = Run {
        ax: 0.0,
        ay: 0.0,
        bx: 0.0,
        by: 0.0,
        z: 0.0,
    };
    Tally {
        some: false,
        last,
        count: 0,
        cut: 0.0,
        dropped: 0.0,
    }
}

// A piece taken: joined to the runs if it is kept, or else its length added to what was dropped.
pub fn take(runs: &mut [f64], y: Tally, r: Run, kept: bool) -> Tally
    ensures { work runs.new result ≡ taken_by runs.old y r kept }
{
    if kept {
        return keep(runs, y, r);
    }
    leave(y, r)
}

// A run kept: it joins the open one, or that one is written and it is the open one.
fn keep(runs: &mut [f64], y: Tally, r: Run) -> Tally
    ensures { work runs.new result ≡ kept_by runs.old y r }
{
    if joins(y, r) {
        return lengthen(y, r);
    }
    let c = close(runs, y);
    Tally {
        some: true,
        last: r,
        count: c.count,
        cut: c.cut,
        dropped: c.dropped,
    }
}

// The open run with one that touches it.
fn lengthen(y: Tally, r: Run) -> Tally
    ensures { result ≡ record { some = true; last = lengthened y.last r; count = y.count; cut = y.cut; dropped = y.dropped } }
{
    let l = y.last;
    let last = Run {
        ax: l.ax,
        ay: l.ay,
        bx: r.bx,
        by: r.by,
        z: l.z,
    };
    Tally {
        some: true,
        last,
        count: y.count,
        cut: y.cut,
        dropped: y.dropped,
    }
}

// A run dropped.
fn leave(y: Tally, r: Run) -> Tally
    ensures { result ≡ left_by y r }
{
    let last = y.last;
    Tally {
        some: y.some,
        last,
        count: y.count,
        cut: y.cut,
        dropped: y.dropped + length(r),
    }
}

// Whether there is an open run that this one touches.
fn joins(y: Tally, r: Run) -> bool
    ensures { result ≡ (y.some && touches_of y.last r) }
{
    let last = y.last;
    y.some && touches(last, r)
}

// Whether a run begins where the last one ended, at the same z.
pub fn touches(last: Run, r: Run) -> bool
    ensures { result ≡ touches_of last r }
{
    last.bx == r.ax && (last.by == r.ay && last.z == r.z)
}

// The open run written.
pub fn close(runs: &mut [f64], y: Tally) -> Tally
    ensures { work runs.new result ≡ closed_of runs.old y }
{
    if !y.some {
        return y;
    }
    let last = y.last;
    let count = y.count;
    let more = on_to(runs.len() / 5, count);
    fives::put(runs, count, last.ax, last.ay, last.bx, last.by, last.z);
    Tally {
        some: false,
        last,
        count: more,
        cut: y.cut + length(last),
        dropped: y.dropped,
    }
}

// One more, as long as there was room.
fn on_to(room: usize, count: usize) -> usize
    requires { room < 4611686018427387904 }
    ensures { result ≡ on_to room count }
{
    if count <= room { count + 1 } else { count }
}

// A run's length, seen from above.
pub fn length(r: Run) -> f64
    ensures { result ≡ length_of r }
{
    roots::hypot(r.bx - r.ax, r.by - r.ay)
}

// The first half of a run.
pub fn first_half(r: Run) -> Run
    ensures { result ≡ first_half r }
{
    Run {
        ax: r.ax,
        ay: r.ay,
        bx: (r.ax + r.bx) / 2.0,
        by: (r.ay + r.by) / 2.0,
        z: r.z,
    }
}
