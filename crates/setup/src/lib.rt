// The set-up height: the floor, or the highest top over it of any triangle whose box meets the question's box grown by the radius. All numbers are
// counted from the least i32.
#![tactic(auto)]

ghost use Rattle.std.specs.Prelude.{◌≡◌, true, ◌+◌, ◌-◌, ◌*◌, ◌^◌, ◌≤◌, ◌<◌, min, length};
ghost use Rattle.walk.specs.Walk.{block, fold};
ghost use Rattle.walk.specs.Inside.{look, Walkable};
ghost use Rattle.ask.specs.Ask.{ended};
ghost use Rattle.um.specs.Index.{index_of};
ghost use Rattle.setup.specs.Question.{are_points, is_question, reach_of, touches as touches_of, meets as meetsOf, taken, step_of, span_of, patch_of};
ghost use Rattle.refusals.specs.Numbers.{code_of};
ghost use Rattle.setup.specs.Answer.{head_usable, refusal_of_tables, refusal_of, told, setup_height_of};
ghost use Rattle.setup.specs.Demand.{SetupPromise};
ghost use Rattle.setup.specs.Inside.{seen, Sane, Small};

use micro::Box;
use query::{Patch, Span};
use refusals::Refusal;
use um::Header;
use walk::Look;

mod usable;

// A question from p to q with the radius r.
#[derive(Clone, Copy)]
pub struct Question {
    pub px: u64,
    pub py: u64,
    pub qx: u64,
    pub qy: u64,
    pub r: u64,
}

// A question's box, and how far it is grown.
#[derive(Clone, Copy)]
pub struct Reach {
    pub left: u64,
    pub right: u64,
    pub bottom: u64,
    pub top: u64,
    pub by: u64,
}

// The height so far, and how many boxes meet.
#[derive(Clone, Copy)]
pub struct Best {
    pub height: u64,
    pub met: u32,
}

// The same, and how many triangles were looked at.
#[derive(Clone, Copy)]
pub struct Seen {
    pub count: u32,
    pub height: u64,
    pub met: u32,
}

// The answer: the height, how many triangles were looked at, the stamp, and how many boxes meet.
#[derive(Clone, Copy)]
pub struct Answer {
    pub height: u64,
    pub count: u32,
    pub stamp: u32,
    pub met: u32,
}

// The set-up height of a question, or why it is refused.
pub fn setup_height(
    mesh: &[i32],
    h: Header,
    starts: &[u32],
    members: &[u32],
    marks: &mut [u32],
    stamp: u32,
    q: Question,
) -> Result<Answer, Refusal>
    ensures marks_after { (ended (told result stamp) marks.new
        ≡ setup_height_of (index_of mesh.now h starts.now members.now) marks.old stamp q) × ((told result stamp).height < 2 ^ 32) }
    ensures setup_promise { SetupPromise (index_of mesh.now h starts.now members.now) marks.old stamp q (told result stamp) }
{
    refusal(mesh, h, starts, members, marks, stamp, q)?;
    let next = walk::next_stamp(marks, stamp);
    let s = walk_from(mesh, h, starts, members, marks, next, reach_of(q));
    Ok(Answer {
        height: s.height,
        count: s.count,
        stamp: next,
        met: s.met,
    })
}

// 1, 2 and 7.
fn refusal(
    mesh: &[i32],
    h: Header,
    starts: &[u32],
    members: &[u32],
    marks: &[u32],
    stamp: u32,
    q: Question,
) -> Result<(), Refusal>
    ensures { code_of result ≡ refusal_of (index_of mesh.now h starts.now members.now) marks.now stamp q }
{
    if !usable::is_marked(mesh, marks) {
        return Err(Refusal::Length);
    }
    if !is_question(q) {
        return Err(Refusal::Number);
    }
    if !usable::head_usable(mesh, h, starts) {
        return Err(Refusal::Index);
    }
    refusal_of_tables(mesh, h, starts, members, marks, stamp, reach_of(q))
}

// 7, of the tables.
fn refusal_of_tables(
    mesh: &[i32],
    h: Header,
    starts: &[u32],
    members: &[u32],
    marks: &[u32],
    stamp: u32,
    w: Reach,
) -> Result<(), Refusal>
    requires { (length mesh.now ≡ length marks.now * 9) × (head_usable mesh.now h starts.now ≡ true) × Small w }
    ensures { code_of result ≡ refusal_of_tables (index_of mesh.now h starts.now members.now) marks.now stamp w }
{
    let n = h.n;
    let columns = h.columns;
    if usable::cells_usable(
        mesh,
        n,
        starts,
        members,
        marks,
        stamp,
        columns,
        patch_of(h, w),
    ) {
        return Ok(());
    }
    Err(Refusal::Index)
}

// Whether the numbers of a question are in their ranges.
fn is_question(q: Question) -> bool
    ensures { result ≡ is_question q }
{
    let r = q.r;
    are_points(q.px, q.py, q.qx, q.qy) && micro::is_radius(r)
}

// Whether the coordinates of its ends are.
fn are_points(px: u64, py: u64, qx: u64, qy: u64) -> bool
    ensures { result ≡ are_points px py qx qy }
{
    micro::is_coordinate(px)
        && (micro::is_coordinate(py) && (micro::is_coordinate(qx) && micro::is_coordinate(qy)))
}

// A question's box, and how far it is grown.
fn reach_of(q: Question) -> Reach
    requires { is_question q ≡ true }
    ensures { (result ≡ reach_of q) × Small result }
{
    Reach {
        left: micro::lower(q.px, q.qx),
        right: micro::higher(q.px, q.qx),
        bottom: micro::lower(q.py, q.qy),
        top: micro::higher(q.py, q.qy),
        by: q.r - 2147483648,
    }
}

// The cells of a question on an axis.
fn span_of(a: u64, b: u64, r: u64, origin: u64, cell: u64, count: usize) -> Span
    requires { (a < 2 ^ 32) × (b < 2 ^ 32) × (r < 2 ^ 32) × (origin < 2 ^ 32) × (0 < cell) }
    ensures { result ≡ span_of a b r origin cell count }
{
    if b + r < origin {
        return Span { first: 0, past: 0 };
    }
    let first = (beyond(a, r + origin) / cell) as usize;
    if count <= first {
        return Span { first: 0, past: 0 };
    }
    Span {
        first,
        past: one_past(count, ((b + r - origin) / cell) as usize),
    }
}

// How far a lies beyond b.
fn beyond(a: u64, b: u64) -> u64
    ensures { result ≡ a - b }
{
    if b <= a { a - b } else { 0 }
}

// One past the last, held to the count.
fn one_past(count: usize, last: usize) -> usize
    ensures { result ≡ min (last + 1) count }
{
    if last < count { last + 1 } else { count }
}

// The cells of a question.
fn patch_of(h: Header, w: Reach) -> Patch
    requires { Small w × (h.x < 2 ^ 32) × (h.y < 2 ^ 32) × (0 < h.cell) }
    ensures { result ≡ patch_of h w }
{
    let x = span_of(w.left, w.right, w.by, h.x, h.cell, h.columns);
    let y = span_of(w.bottom, w.top, w.by, h.y, h.cell, h.rows);
    Patch {
        x0: x.first,
        x1: x.past,
        y0: y.first,
        y1: y.past,
    }
}

// The walk of a question: it begins at the floor.
fn walk_from(
    mesh: &[i32],
    h: Header,
    starts: &[u32],
    members: &[u32],
    marks: &mut [u32],
    stamp: u32,
    w: Reach,
) -> Seen
    requires { (length mesh.now ≡ length marks.old * 9) × (length marks.old ≤ 65536) × (h.floor < 2 ^ 32)
        × Small w × (h.x < 2 ^ 32) × (h.y < 2 ^ 32) × (0 < h.cell)
        × Walkable starts.now members.now (length marks.old) h.columns (patch_of h w).x0 (patch_of h w).x1 (patch_of h w).y0 (patch_of h w).y1 }
    ensures { (seen marks.new result
        ≡ fold (look stamp (step_of mesh.now w)) (seen marks.old (record { count = 0; height = h.floor; met = 0 }))
        (block starts.now members.now h.columns (patch_of h w).x0 (patch_of h w).x1 (patch_of h w).y0 (patch_of h w).y1)) × Sane result }
{
    let p = patch_of(h, w);
    let s = walk::visit(
        &Tops { mesh, w },
        starts,
        members,
        marks,
        stamp,
        h.columns,
        p.x0,
        p.x1,
        p.y0,
        p.y1,
        walk::Seen {
            count: 0,
            best: Best {
                height: h.floor,
                met: 0,
            },
        },
    );
    let best = s.best;
    Seen {
        count: s.count,
        height: best.height,
        met: best.met,
    }
}

// A question at a triangle: the mesh, and the question's box.
#[derive(Clone, Copy)]
struct Tops<'a> {
    mesh: &'a [i32],
    w: Reach,
}

impl<'a> Look for Tops<'a> {
    type Found = Best;

    ghost fits = { λ q i. (9 * i + 9 ≤ length q.mesh.now) × Small q.w };

    ghost sane = { λ q count best. Sane (record { count = count; height = best.height; met = best.met }) };

    ghost step = { λ q. step_of q.mesh.now q.w };

    #[inline]
    fn look(&self, _: u32, best: Best, i: u32) -> Best {
        let b = micro::box_of(self.mesh, i as usize);
        take(self.w, b, best.height, best.met)
    }
}

// Whether two stretches of an axis meet, the second grown by r.
fn touches(low: u64, high: u64, a: u64, b: u64, r: u64) -> bool
    requires { (high < 2 ^ 32) × (b < 2 ^ 32) × (r < 2 ^ 32) }
    ensures { result ≡ touches_of low high a b r }
{
    a <= high + r && low <= b + r
}

// Whether a box meets the question's box grown by r.
fn meets(w: Reach, b: Box) -> bool
    requires { Small w × (b.high_x < 2 ^ 32) × (b.high_y < 2 ^ 32) }
    ensures { result ≡ meetsOf w b }
{
    let by = w.by;
    let bottom = w.bottom;
    let top = w.top;
    let low = b.low_y;
    let high = b.high_y;
    touches(b.low_x, b.high_x, w.left, w.right, by) && touches(low, high, bottom, top, by)
}

// The best so far with one triangle more.
fn take(w: Reach, b: Box, height: u64, met: u32) -> Best
    requires { Small w × (b.high_x < 2 ^ 32) × (b.high_y < 2 ^ 32) × (met + 1 < 2 ^ 32) }
    ensures { result ≡ taken w b (record { height = height; met = met }) }
{
    let top = b.top;
    if meets(w, b) {
        return Best {
            height: micro::higher(height, top),
            met: met + 1,
        };
    }
    Best { height, met }
}
