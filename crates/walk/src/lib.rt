// What every question's walk shares: the stamp's turn, the mark of one triangle, and the numbers of one cell.
#![tactic(auto)]

ghost use Rattle.std.specs.Prelude.{◌≡◌, ℕ, Bool, true, ◌+◌, ◌^◌, not, cond, ◌<◌, eqb, length, get_or, set, replicate};
ghost use Rattle.walk.specs.Walk.{cell, block, fold, next_stamp, ready_marks};
ghost use Rattle.walk.specs.Inside.{seen, judged, look, strike, Below, Room, Stretch, Walkable, FitsAll};

// How many triangles a question has looked at, and what it has found: a height question the highest contact so far.
#[derive(Clone, Copy)]
pub struct Seen<B> {
    pub count: u32,
    pub best: B,
}

// How many triangles a chord question has looked at, and whether none of them blocks.
#[derive(Clone, Copy)]
pub struct Verdict {
    pub count: u32,
    pub clear: bool,
}

// What a question does at a triangle: what it has found so far becomes what it has found with that triangle.
pub trait Look {
    type Found: Copy;

    // What its tables have of a triangle.
    ghost fits: { Self → ℕ → Type 0 };

    // What holds of a number of triangles looked at and of what was found in them.
    ghost sane: { Self → ℕ → Self.Found → Type 0 };

    ghost step: { Self → Self.Found → ℕ → Self.Found };

    fn look(&self, count: u32, found: Self::Found, i: u32) -> Self::Found
        requires { fits self.now i × sane self.now count found × (count + 1 < 2 ^ 32) }
        ensures { (result ≡ step self.now found i) × sane self.now (count + 1) result };
}

// What a chord question asks of a triangle: whether it blocks the way.
pub trait Block {
    // What its tables have of a triangle.
    ghost fits: { Self → ℕ → Type 0 };

    ghost blocks: { Self → ℕ → Bool };

    fn is_blocker(&self, i: u32) -> bool
        requires { fits self.now i }
        ensures { result ≡ blocks self.now i };
}

// Every mark becomes 0.
pub fn wipe(marks: &mut [u32])
    ensures { marks.new ≡ replicate (length marks.old) 0 }
{
    marks.fill(0);
}

// The stamp of the next walk; after the last one the marks are wiped.
pub fn next_stamp(marks: &mut [u32], stamp: u32) -> u32
    ensures { (result ≡ next_stamp stamp) × (marks.new ≡ ready_marks marks.old stamp) }
{
    if stamp == 4294967295 {
        wipe(marks);
        return 1;
    }
    stamp + 1
}

// Whether triangle i is not yet looked at; its mark holds the stamp from then on.
pub fn fresh(marks: &mut [u32], stamp: u32, i: usize) -> bool
    requires { i < length marks.old }
    ensures { (result ≡ not (eqb (get_or marks.old i 0) stamp)) × (marks.new ≡ set marks.old i stamp) }
{
    if marks[i] == stamp {
        return false;
    }
    marks[i] = stamp;
    true
}

// The numbers of cell c: the part of the member table between two starts.
pub fn stretch<'a>(starts: &[u32], members: &'a [u32], c: usize) -> &'a [u32]
    requires { Stretch starts.now members.now c }
    ensures { result.now ≡ cell starts.now members.now c }
{
    let a = starts[c] as usize;
    let e = starts[c + 1] as usize;
    &members[a..e]
}

// One of two tables: the first, if that is wanted.
pub fn one_of<'a>(first: bool, a: &'a [u32], b: &'a [u32]) -> &'a [u32]
    ensures { result.now ≡ cond first a.now b.now }
{
    if first {
        return a;
    }
    b
}

// Looks at triangle i, unless its mark is the stamp.
#[inline]
fn look_at<Q: Look>(
    q: &Q,
    marks: &mut [u32],
    stamp: u32,
    s: Seen<Q::Found>,
    i: u32,
) -> Seen<Q::Found>
    requires { (i < length marks.old) × Room stamp (seen marks.old s) × Q.fits q.now i × Q.sane q.now s.count s.best }
    ensures { (seen marks.new result ≡ look stamp (Q.step q.now) (seen marks.old s) i)
        × Q.sane q.now result.count result.best }
{
    if !fresh(marks, stamp, i as usize) {
        return s;
    }
    Seen {
        count: s.count + 1,
        best: q.look(s.count, s.best, i),
    }
}

// The step over one cell: looks at each of its numbers.
#[inline]
fn visit_cell<Q: Look>(
    q: &Q,
    part: &[u32],
    marks: &mut [u32],
    stamp: u32,
    s: Seen<Q::Found>,
) -> Seen<Q::Found>
    requires { Below (length marks.old) part.now × Room stamp (seen marks.old s)
        × FitsAll (Q.fits q.now) (length marks.old) × Q.sane q.now s.count s.best }
    ensures { (seen marks.new result ≡ fold (look stamp (Q.step q.now)) (seen marks.old s) part.now)
        × Q.sane q.now result.count result.best }
{
    let mut found = s;
    for i in part {
        found = look_at(q, marks, stamp, found, *i);
    }
    found
}

// The walk over the cells of columns x0 up to x1 of rows y0 up to y1: rows, then columns, then the numbers of each cell.
pub fn visit<Q: Look>(
    q: &Q,
    starts: &[u32],
    members: &[u32],
    marks: &mut [u32],
    stamp: u32,
    columns: usize,
    x0: usize,
    x1: usize,
    y0: usize,
    y1: usize,
    s: Seen<Q::Found>,
) -> Seen<Q::Found>
    requires { Walkable starts.now members.now (length marks.old) columns x0 x1 y0 y1
        × Room stamp (seen marks.old s) × FitsAll (Q.fits q.now) (length marks.old) × Q.sane q.now s.count s.best }
    ensures { (seen marks.new result ≡ fold (look stamp (Q.step q.now)) (seen marks.old s)
        (block starts.now members.now columns x0 x1 y0 y1)) × Q.sane q.now result.count result.best }
{
    let mut found = s;
    for y in y0..y1 {
        for x in x0..x1 {
            let part = stretch(starts, members, y * columns + x);
            found = visit_cell(q, part, marks, stamp, found);
        }
    }
    found
}

// Looks at triangle i, unless its mark is the stamp: does it block?
#[inline]
fn strike_at<Q: Block>(q: &Q, marks: &mut [u32], stamp: u32, v: Verdict, i: u32) -> Verdict
    requires { (i < length marks.old) × Room stamp (judged marks.old v) × Q.fits q.now i × (v.clear ≡ true) }
    ensures { judged marks.new result ≡ strike stamp (Q.blocks q.now) (judged marks.old v) i }
{
    if !fresh(marks, stamp, i as usize) {
        return v;
    }
    Verdict {
        count: v.count + 1, // a blocker too
        clear: !q.is_blocker(i),
    }
}

// The same walk for a chord question: it is left at the first triangle that blocks.
pub fn chase<Q: Block>(
    q: &Q,
    starts: &[u32],
    members: &[u32],
    marks: &mut [u32],
    stamp: u32,
    columns: usize,
    x0: usize,
    x1: usize,
    y0: usize,
    y1: usize,
) -> Verdict
    requires { Walkable starts.now members.now (length marks.old) columns x0 x1 y0 y1
        × Room stamp (judged marks.old (record { count = 0; clear = true })) × FitsAll (Q.fits q.now) (length marks.old) }
    ensures { judged marks.new result ≡ fold (strike stamp (Q.blocks q.now))
        (judged marks.old (record { count = 0; clear = true }))
        (block starts.now members.now columns x0 x1 y0 y1) }
{
    let mut v = Verdict {
        count: 0,
        clear: true,
    };
    'rows: for y in y0..y1 {
        for x in x0..x1 {
            let numbers = stretch(starts, members, y * columns + x);
            for i in numbers {
                v = strike_at(q, marks, stamp, v, *i);
                if !v.clear {
                    break 'rows; // out of all three rings
                }
            }
        }
    }
    v
}
