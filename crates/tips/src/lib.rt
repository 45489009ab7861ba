// The highest tip of a tool that rests on the part: a bull-nose cutter, or a table of sections.
#![tactic(auto)]

ghost use Rattle.std.specs.Prelude.{true, List, ◌≡◌, ℕ, ◌+◌, ◌*◌, ◌≤◌, length, ⊤};
ghost use Rattle.walk.specs.Walk.{block, fold};
ghost use Rattle.walk.specs.Inside.{seen, look, Tabled};
ghost use Rattle.grid.specs.Index.{index_of};
ghost use Rattle.ask.specs.Ask.{ended, at_floor, answer_told};
ghost use Rattle.tips.specs.Contact.{bull_raised, bull_step, is_stand, max_bull_of, BullPromise, tool_raised};
ghost use Rattle.tips.specs.Contact.{tool_step, is_place, max_sections_of, SectionsPromise};
ghost use Rattle.tips.specs.Inside.{guess_step, first_raised, from_raised, from_step, may_begin, Fresh, Besides, Tables, Ready};

use ask::Answer;
use bull::Bull;
use grid::Header;
use plane::{Best, Triangle};
use query::Patch;
use refusals::Refusal;
use walk::{Look, Seen};

// 2^-10: how far under the guess a walk begins. Nearer to it more triangles could have their contact on either side of that.
const AHEAD: f64 = 0.0009765625;

// Where a tool stands, and the lowest z0 of its sections.
#[derive(Clone, Copy)]
pub struct Axis {
    pub x: f64,
    pub y: f64,
    pub low: f64,
}

// A bull-nose cutter with a number beside it: from which sum of squares on a place is out of reach, or the height at which a walk begins.
#[derive(Clone, Copy)]
pub struct Sight {
    pub nose: Bull,
    pub limit: f64,
}

// A cutter's question at a triangle: the tables of the part, and the cutter.
#[derive(Clone, Copy)]
struct Nose<'a> {
    mesh: &'a [f64],
    boxes: &'a [f64],
    k: Bull,
}

impl<'a> Look for Nose<'a> {
    type Found = Best;

    ghost fits = { λ q. Tabled q.mesh.now q.boxes.now };

    ghost sane = { λ q count best. ⊤ };

    ghost step = { λ q. bull_step q.mesh.now q.boxes.now q.k };

    #[inline]
    fn look(&self, _: u32, best: Best, i: u32) -> Best {
        raise_bull(self.mesh, self.boxes, self.k, best, i)
    }
}

// The same of a tool of sections.
#[derive(Clone, Copy)]
struct Sections<'a> {
    mesh: &'a [f64],
    boxes: &'a [f64],
    a: Axis,
    table: &'a [f64],
}

impl<'a> Look for Sections<'a> {
    type Found = Best;

    ghost fits = { λ q. Tabled q.mesh.now q.boxes.now };

    ghost sane = { λ q count best. ⊤ };

    ghost step = { λ q. tool_step q.mesh.now q.boxes.now q.a q.table.now };

    #[inline]
    fn look(&self, _: u32, best: Best, i: u32) -> Best {
        raise_tool(self.mesh, self.boxes, self.a, self.table, best, i)
    }
}

// The same of a walk that guesses what a cutter's will find.
#[derive(Clone, Copy)]
struct Guess<'a> {
    mesh: &'a [f64],
    boxes: &'a [f64],
    g: Sight,
}

impl<'a> Look for Guess<'a> {
    type Found = Best;

    ghost fits = { λ q. Tabled q.mesh.now q.boxes.now };

    ghost sane = { λ q count best. ⊤ };

    ghost step = { λ q. guess_step q.mesh.now q.boxes.now q.g };

    #[inline]
    fn look(&self, _: u32, guess: Best, i: u32) -> Best {
        raise_guess(self.mesh, self.boxes, self.g, guess, i)
    }
}

// The same of a cutter's walk that begins above the floor.
#[derive(Clone, Copy)]
struct Above<'a> {
    mesh: &'a [f64],
    boxes: &'a [f64],
    g: Sight,
}

impl<'a> Look for Above<'a> {
    type Found = Best;

    ghost fits = { λ q. Tabled q.mesh.now q.boxes.now };

    ghost sane = { λ q count best. ⊤ };

    ghost step = { λ q. from_step q.mesh.now q.boxes.now q.g };

    #[inline]
    fn look(&self, _: u32, best: Best, i: u32) -> Best {
        raise_from(self.mesh, self.boxes, self.g, best, i)
    }
}

// The highest tip of a bull-nose cutter of the radius r and the corner radius rc at (px, py), or why the question is refused.
pub fn max_bull(
    mesh: &[f64],
    h: Header,
    starts: &[u32],
    members: &[u32],
    boxes: &[f64],
    marks: &mut [u32],
    stamp: u32,
    px: f64,
    py: f64,
    r: f64,
    rc: f64,
) -> Result<Answer, Refusal>
    ensures marks_after { ended (answer_told result stamp) marks.new
        ≡ max_bull_of (index_of mesh.now h starts.now members.now boxes.now)
        marks.old stamp (record { x = px; y = py; r = r; rc = rc }) }
    ensures bull_promise { BullPromise (index_of mesh.now h starts.now members.now boxes.now)
        marks.old stamp (record { x = px; y = py; r = r; rc = rc }) (answer_told result stamp) }
{
    let k = Bull {
        x: px,
        y: py,
        r,
        rc,
    };
    let columns = h.columns;
    let floor = h.floor;
    let p = query::patch_of(h, px, py, px, py, r);
    let stands = is_stand(px, py, r);
    let corner = ask::is_corner(r, rc);
    let mut list = [0u32; 2048];
    let count = ask::refusal(
        mesh, h, starts, members, boxes, marks, stamp, p, stands, corner, &mut list,
    )?;
    let next = walk::next_stamp(marks, stamp);
    let listed = count <= 2048;
    let ends = [0u32, count];
    let s = walk_nose(
        mesh,
        walk::one_of(listed, &ends, starts),
        walk::one_of(listed, &list, members),
        boxes,
        marks,
        next,
        columns,
        query::narrowed(listed, p),
        k,
        floor,
    );
    let best = s.best;
    Ok(Answer {
        height: best.height,
        count: s.count,
        stamp: next,
        triangle: best.triangle,
        kind: best.kind,
        which: best.which,
    })
}

// The highest tip of a tool at (px, py) whose sections are four numbers each of a table, or why the question is refused.
pub fn max_sections(
    mesh: &[f64],
    h: Header,
    starts: &[u32],
    members: &[u32],
    boxes: &[f64],
    marks: &mut [u32],
    stamp: u32,
    px: f64,
    py: f64,
    table: &[f64],
) -> Result<Answer, Refusal>
    ensures marks_after { ended (answer_told result stamp) marks.new
        ≡ max_sections_of (index_of mesh.now h starts.now members.now boxes.now)
        marks.old stamp px py table.now }
    ensures sections_promise { SectionsPromise (index_of mesh.now h starts.now members.now boxes.now)
        marks.old stamp px py table.now (answer_told result stamp) }
{
    let columns = h.columns;
    let first = Seen {
        count: 0,
        best: Best {
            height: h.floor,
            triangle: 0,
            kind: 0,
            which: 0,
        },
    };
    let reach = tool::widest(table);
    let low = tool::lowest(table);
    let p = query::patch_of(h, px, py, px, py, reach);
    let stands = is_place(px, py);
    let valid = tool::is_tool(table);
    let mut list = [0u32; 2048];
    let count = ask::refusal(
        mesh, h, starts, members, boxes, marks, stamp, p, stands, valid, &mut list,
    )?;
    let next = walk::next_stamp(marks, stamp);
    let a = Axis { x: px, y: py, low };
    let listed = count <= 2048;
    let ends = [0u32, count];
    let cells = query::narrowed(listed, p);
    let s = walk::visit(
        &Sections {
            mesh,
            boxes,
            a,
            table,
        },
        walk::one_of(listed, &ends, starts),
        walk::one_of(listed, &list, members),
        marks,
        next,
        columns,
        cells.x0,
        cells.x1,
        cells.y0,
        cells.y1,
        first,
    );
    let best = s.best;
    Ok(Answer {
        height: best.height,
        count: s.count,
        stamp: next,
        triangle: best.triangle,
        kind: best.kind,
        which: best.which,
    })
}

// Whether a cutter's axis is a point and its radius in its range.
fn is_stand(x: f64, y: f64, r: f64) -> bool
    ensures { result ≡ is_stand x y r }
{
    plane::is_point(x) && (plane::is_point(y) && plane::is_radius(r))
}

// Whether a tool's axis is a point.
fn is_place(x: f64, y: f64) -> bool
    ensures { result ≡ is_place x y }
{
    plane::is_point(x) && plane::is_point(y)
}

// The best so far with triangle i, whose top is given.
fn raise_bull_on(t: Triangle, top: f64, i: u32, k: Bull, best: Best) -> Best
    ensures { result ≡ bull_raised t top i k best }
{
    if top <= best.height {
        return best;
    }
    plane::raise_by(bull::bull_contact_on(t, k, best.height), i, best)
}

// The best so far of a cutter with triangle i.
fn raise_bull(mesh: &[f64], boxes: &[f64], k: Bull, best: Best, i: u32) -> Best
    requires { (9 * i + 9 ≤ length mesh.now) × (5 * i + 5 ≤ length boxes.now) }
    ensures { result ≡ bull_step mesh.now boxes.now k best i }
{
    let b = grid::box_at(boxes, i as usize);
    raise_bull_on(plane::triangle_at(mesh, i as usize), b.top, i, k, best)
}

// The best so far with triangle i, whose top is given.
fn raise_tool_on(t: Triangle, top: f64, i: u32, a: Axis, table: &[f64], best: Best) -> Best
    ensures { result ≡ tool_raised t top i a table.now best }
{
    let x = a.x;
    let y = a.y;
    let low = a.low;
    if top - low <= best.height {
        return best;
    }
    tool::raise_over(t, i, x, y, table, best)
}

// The best so far of a tool of sections with triangle i.
fn raise_tool(mesh: &[f64], boxes: &[f64], a: Axis, table: &[f64], best: Best, i: u32) -> Best
    requires { (9 * i + 9 ≤ length mesh.now) × (5 * i + 5 ≤ length boxes.now) }
    ensures { result ≡ tool_step mesh.now boxes.now a table.now best i }
{
    let b = grid::box_at(boxes, i as usize);
    raise_tool_on(
        plane::triangle_at(mesh, i as usize),
        b.top,
        i,
        a,
        table,
        best,
    )
}

// The guess so far with triangle i.
fn raise_guess(mesh: &[f64], boxes: &[f64], g: Sight, best: Best, i: u32) -> Best
    requires { (9 * i + 9 ≤ length mesh.now) × (5 * i + 5 ≤ length boxes.now) }
    ensures { result ≡ guess_step mesh.now boxes.now g best i }
{
    let z = best.height;
    let k = g.nose;
    let far = g.limit;
    let b = grid::box_at(boxes, i as usize);
    if z >= b.top {
        return best;
    }
    at(ahead::sighted(k, far, plane::triangle_at(mesh, i as usize), b, z))
}

// A best so far of the height z that names nothing.
fn at(z: f64) -> Best
    ensures { result ≡ at_floor z }
{
    Best {
        height: z,
        triangle: 0,
        kind: 0,
        which: 0,
    }
}

// The best so far with triangle i, in a walk that begins above the floor.
fn raise_from(mesh: &[f64], boxes: &[f64], g: Sight, best: Best, i: u32) -> Best
    requires { (9 * i + 9 ≤ length mesh.now) × (5 * i + 5 ≤ length boxes.now) }
    ensures { result ≡ from_step mesh.now boxes.now g best i }
{
    let b = grid::box_at(boxes, i as usize);
    raise_from_on(plane::triangle_at(mesh, i as usize), b.top, i, g, best)
}

// The same, with the triangle's top given: it is tested until the walk is first raised.
fn raise_from_on(t: Triangle, top: f64, i: u32, g: Sight, best: Best) -> Best
    ensures { result ≡ from_raised t top i g best }
{
    if best.height <= g.limit {
        return raise_first(t, top, i, g, best);
    }
    raise_bull_on(t, top, i, g.nose, best)
}

// The same before the walk is raised: it is lost at a triangle whose contact could be on either side of where it began.
fn raise_first(t: Triangle, top: f64, i: u32, g: Sight, best: Best) -> Best
    ensures { result ≡ first_raised t top i g best }
{
    if tops::is_parted(g.limit, top, t) {
        return raise_bull_on(t, top, i, g.nose, best);
    }
    at(1.0 / 0.0)
}

// The walk of a cutter. A first one, under another stamp, guesses the answer; where that allows it the walk begins just under the guess, so that triangles
// that lie lower are left out without a contact.
fn walk_nose(
    mesh: &[f64],
    starts: &[u32],
    members: &[u32],
    boxes: &[f64],
    marks: &mut [u32],
    stamp: u32,
    columns: usize,
    p: Patch,
    k: Bull,
    floor: f64,
) -> Seen<Best>
    requires { Ready mesh.now boxes.now starts.now members.now columns p marks.old stamp }
    ensures { seen marks.new result ≡ fold (look stamp (bull_step mesh.now boxes.now k))
        (seen marks.old (record { count = 0; best = at_floor floor }))
        (block starts.now members.now columns p.x0 p.x1 p.y0 p.y1) }
{
    let other = other_than(stamp);
    let g = Sight {
        nose: k,
        limit: bound::beyond(k.r),
    };
    let s = walk::visit(
        &Guess { mesh, boxes, g },
        starts,
        members,
        marks,
        other,
        columns,
        p.x0,
        p.x1,
        p.y0,
        p.y1,
        begun(floor),
    );
    let from = s.best.height - AHEAD;
    if may_begin(k, floor, from) {
        return walk_from(
            mesh, starts, members, boxes, marks, stamp, columns, p, k, floor, from,
        );
    }
    walk::visit(
        &Nose { mesh, boxes, k },
        starts,
        members,
        marks,
        stamp,
        columns,
        p.x0,
        p.x1,
        p.y0,
        p.y1,
        begun(floor),
    )
}

// The walk of a cutter that begins at `from`; if it is not raised there, another from the floor.
fn walk_from(
    mesh: &[f64],
    starts: &[u32],
    members: &[u32],
    boxes: &[f64],
    marks: &mut [u32],
    stamp: u32,
    columns: usize,
    p: Patch,
    k: Bull,
    floor: f64,
    from: f64,
) -> Seen<Best>
    requires { Ready mesh.now boxes.now starts.now members.now columns p marks.old stamp × (may_begin k floor from ≡ true) }
    ensures { seen marks.new result ≡ fold (look stamp (bull_step mesh.now boxes.now k))
        (seen marks.old (record { count = 0; best = at_floor floor }))
        (block starts.now members.now columns p.x0 p.x1 p.y0 p.y1) }
{
    let g = Sight {
        nose: k,
        limit: from,
    };
    let s = walk::visit(
        &Above { mesh, boxes, g },
        starts,
        members,
        marks,
        stamp,
        columns,
        p.x0,
        p.x1,
        p.y0,
        p.y1,
        begun(from),
    );
    if s.best.kind != 0 {
        return s;
    }
    walk_back(
        mesh, starts, members, boxes, marks, stamp, columns, p, k, floor,
    )
}

// The walk of a cutter from the floor, over marks that a walk under the same stamp has left: each of them is given another stamp first. What it does is what
// it does over marks without the stamp that are the same everywhere else.
fn walk_back(
    mesh: &[f64],
    starts: &[u32],
    members: &[u32],
    boxes: &[f64],
    marks: &mut [u32],
    stamp: u32,
    columns: usize,
    p: Patch,
    k: Bull,
    floor: f64,
) -> Seen<Best>
    requires { Tables mesh.now boxes.now starts.now members.now columns p marks.old }
    ensures { (m : List ℕ) → Fresh stamp m (block starts.now members.now columns p.x0 p.x1 p.y0 p.y1)
        → Besides (block starts.now members.now columns p.x0 p.x1 p.y0 p.y1) m marks.old
        → seen marks.new result ≡ fold (look stamp (bull_step mesh.now boxes.now k))
        (seen m (record { count = 0; best = at_floor floor }))
        (block starts.now members.now columns p.x0 p.x1 p.y0 p.y1) }
{
    let aside = other_than(stamp);
    let g = Sight {
        nose: k,
        limit: 0.0,
    };
    walk::visit(
        &Guess { mesh, boxes, g },
        starts,
        members,
        marks,
        aside,
        columns,
        p.x0,
        p.x1,
        p.y0,
        p.y1,
        begun(1.0 / 0.0),
    );
    walk::visit(
        &Nose { mesh, boxes, k },
        starts,
        members,
        marks,
        stamp,
        columns,
        p.x0,
        p.x1,
        p.y0,
        p.y1,
        begun(floor),
    )
}

// Whether a walk over the floor may begin at `from`.
fn may_begin(k: Bull, floor: f64, from: f64) -> bool
    ensures { result ≡ may_begin k floor from }
{
    tops::is_start(from) && (floor <= from && ahead::is_level(k))
}

// A stamp that is not the one given.
fn other_than(stamp: u32) -> u32
    ensures { result ≡ stamp → ⊥ }
{
    if stamp == 4294967295 {
        return 0;
    }
    stamp + 1
}

// No triangle looked at, and the height z.
fn begun(z: f64) -> Seen<Best>
    ensures { result ≡ record { count = 0; best = at_floor z } }
{
    Seen {
        count: 0,
        best: at(z),
    }
}
