// Whether a tool that moves straight from one tip to another stays above the part: a bull-nose cutter, or a table of sections.
#![tactic(auto)]

ghost use Rattle.std.specs.Prelude.{◌≡◌, ◌*◌, ◌≤◌, length};
ghost use Rattle.walk.specs.Inside.{Tabled, Walkable};
ghost use Rattle.grid.specs.Index.{index_of};
ghost use Rattle.ask.specs.Ask.{ended, blocked_early, ruled, ruling_told};
ghost use Rattle.chords.specs.Chords.{is_end, is_chord, blocked_at_once, is_ride, bull_blocks_at, bull_chord_of, BullChordPromise};
ghost use Rattle.chords.specs.Chords.{tool_blocks, tool_blocks_at, sections_chord_of, SectionsChordPromise};
ghost use Rattle.chords.specs.Inside.{ruled_chord, is_under};

use ask::Ruling;
use grid::Header;
use plane::{Bounds, Triangle};
use query::Patch;
use reach::Chord;
use refusals::Refusal;
use walk::Block;

// A chord's question at a triangle: the tables of the part, the chord, and a bull-nose cutter by its radius and its corner radius.
#[derive(Clone, Copy)]
struct Nose<'a> {
    mesh: &'a [f64],
    boxes: &'a [f64],
    m: Chord,
    r: f64,
    rc: f64,
}

impl<'a> Block for Nose<'a> {
    ghost fits = { λ q. Tabled q.mesh.now q.boxes.now };

    ghost blocks = { λ q. bull_blocks_at q.mesh.now q.boxes.now q.m q.r q.rc };

    // Most lie under the tool, which a box shows before the triangle is read.
    #[inline]
    fn is_blocker(&self, i: u32) -> bool {
        let b = grid::box_at(self.boxes, i as usize);
        if is_under(b.top, self.m) {
            return false;
        }
        bull_gap::bull_blocks(
            plane::triangle_at(self.mesh, i as usize),
            b.top,
            self.m,
            self.r,
            self.rc,
        )
    }
}

// The same of sections, by their lowest z0 and their table.
#[derive(Clone, Copy)]
struct Sections<'a> {
    mesh: &'a [f64],
    boxes: &'a [f64],
    m: Chord,
    low: f64,
    table: &'a [f64],
}

impl<'a> Block for Sections<'a> {
    ghost fits = { λ q. Tabled q.mesh.now q.boxes.now };

    ghost blocks = { λ q. tool_blocks_at q.mesh.now q.boxes.now q.m q.low q.table.now };

    #[inline]
    fn is_blocker(&self, i: u32) -> bool {
        let b = grid::box_at(self.boxes, i as usize);
        if is_under(b.top - self.low, self.m) {
            return false;
        }
        tool_blocks(
            plane::triangle_at(self.mesh, i as usize),
            b,
            self.m,
            self.low,
            self.table,
        )
    }
}

// Whether a bull-nose cutter of the radius r and the corner radius rc is clear from the tip a to the tip b, or why the question is refused.
pub fn bull_chord_clear(
    mesh: &[f64],
    h: Header,
    starts: &[u32],
    members: &[u32],
    boxes: &[f64],
    marks: &mut [u32],
    stamp: u32,
    m: Chord,
    r: f64,
    rc: f64,
) -> Result<Ruling, Refusal>
    ensures marks_after { ended (ruling_told result stamp) marks.new
        ≡ bull_chord_of (index_of mesh.now h starts.now members.now boxes.now) marks.old stamp m r rc }
    ensures bull_chord_promise { BullChordPromise (index_of mesh.now h starts.now members.now boxes.now)
        marks.old stamp m r rc (ruling_told result stamp) }
{
    let columns = h.columns;
    let floor = h.floor;
    let p = query::patch_of(h, m.ax, m.ay, m.bx, m.by, r);
    let asked = is_ride(m, r);
    let corner = ask::is_corner(r, rc);
    let mut list = [0u32; 2048];
    let count = ask::refusal(
        mesh, h, starts, members, boxes, marks, stamp, p, asked, corner, &mut list,
    )?;
    if blocked_at_once(floor, m) {
        return Ok(blocked(stamp));
    }
    let next = walk::next_stamp(marks, stamp);
    let listed = count <= 2048;
    let ends = [0u32, count];
    let cells = query::narrowed(listed, p);
    let v = walk::chase(
        &Nose {
            mesh,
            boxes,
            m,
            r,
            rc,
        },
        walk::one_of(listed, &ends, starts),
        walk::one_of(listed, &list, members),
        marks,
        next,
        columns,
        cells.x0,
        cells.x1,
        cells.y0,
        cells.y1,
    );
    Ok(Ruling {
        clear: v.clear,
        count: v.count,
        stamp: next,
    })
}

// Whether a tool whose sections are four numbers each of a table is clear from the tip a to the tip b, or why the question is refused.
pub fn sections_chord_clear(
    mesh: &[f64],
    h: Header,
    starts: &[u32],
    members: &[u32],
    boxes: &[f64],
    marks: &mut [u32],
    stamp: u32,
    m: Chord,
    table: &[f64],
) -> Result<Ruling, Refusal>
    ensures marks_after { ended (ruling_told result stamp) marks.new
        ≡ sections_chord_of (index_of mesh.now h starts.now members.now boxes.now)
        marks.old stamp m table.now }
    ensures sections_chord_promise { SectionsChordPromise (index_of mesh.now h starts.now members.now boxes.now)
        marks.old stamp m table.now (ruling_told result stamp) }
{
    let reach = tool::widest(table);
    let low = tool::lowest(table);
    let p = query::patch_of(h, m.ax, m.ay, m.bx, m.by, reach);
    let asked = is_chord(m);
    let valid = tool::is_tool(table);
    let mut list = [0u32; 2048];
    let count = ask::refusal(
        mesh, h, starts, members, boxes, marks, stamp, p, asked, valid, &mut list,
    )?;
    let listed = count <= 2048;
    let ends = [0u32, count];
    Ok(tool_ruling(
        mesh,
        h,
        walk::one_of(listed, &ends, starts),
        walk::one_of(listed, &list, members),
        boxes,
        marks,
        stamp,
        query::narrowed(listed, p),
        m,
        low,
        table,
    ))
}

// The same where nothing is left to refuse, over the cells p and with the lowest z0 of the sections.
pub fn tool_ruling(
    mesh: &[f64],
    h: Header,
    starts: &[u32],
    members: &[u32],
    boxes: &[f64],
    marks: &mut [u32],
    stamp: u32,
    p: Patch,
    m: Chord,
    low: f64,
    table: &[f64],
) -> Ruling
    requires { (length mesh.now ≡ length marks.old * 9) × (length marks.old ≤ 65536)
        × Walkable starts.now members.now (length marks.old) h.columns p.x0 p.x1 p.y0 p.y1
        × (length boxes.now ≡ length marks.old * 5) }
    ensures { ended (ruled result) marks.new
        ≡ ruled_chord (blocked_at_once h.floor m) (tool_blocks_at mesh.now boxes.now m low table.now)
        (index_of mesh.now h starts.now members.now boxes.now) marks.old stamp p }
{
    let columns = h.columns;
    let floor = h.floor;
    if blocked_at_once(floor, m) {
        return blocked(stamp);
    }
    let next = walk::next_stamp(marks, stamp);
    let v = walk::chase(
        &Sections {
            mesh,
            boxes,
            m,
            low,
            table,
        },
        starts,
        members,
        marks,
        next,
        columns,
        p.x0,
        p.x1,
        p.y0,
        p.y1,
    );
    Ruling {
        clear: v.clear,
        count: v.count,
        stamp: next,
    }
}

// Blocked before any walk.
fn blocked(stamp: u32) -> Ruling
    ensures { ruled result ≡ blocked_early stamp }
{
    Ruling {
        clear: false,
        count: 0,
        stamp,
    }
}

// Whether the three coordinates of an end are a point's.
pub fn is_end(x: f64, y: f64, z: f64) -> bool
    ensures { result ≡ is_end x y z }
{
    plane::is_point(x) && (plane::is_point(y) && plane::is_point(z))
}

// Whether a chord's numbers are in their ranges.
fn is_chord(m: Chord) -> bool
    ensures { result ≡ is_chord m }
{
    let bx = m.bx;
    let by = m.by;
    let bz = m.bz;
    let lift = m.lift;
    is_end(m.ax, m.ay, m.az) && (is_end(bx, by, bz) && plane::is_coordinate(lift))
}

// The same with a radius.
fn is_ride(m: Chord, r: f64) -> bool
    ensures { result ≡ is_ride m r }
{
    is_chord(m) && plane::is_radius(r)
}

// Whether a chord's lower end is under floor + lift.
fn blocked_at_once(floor: f64, m: Chord) -> bool
    ensures { result ≡ blocked_at_once floor m }
{
    let high = floor + m.lift;
    numbers::min(m.az, m.bz) < high
}

// Whether a triangle with the box b blocks the tool.
fn tool_blocks(t: Triangle, b: Bounds, m: Chord, low: f64, table: &[f64]) -> bool
    ensures { result ≡ tool_blocks t b m low table.now }
{
    let lift = m.lift;
    let tip = numbers::min(m.az, m.bz);
    if b.top - low + lift <= tip {
        return false;
    }
    !tool::passes_all(t, b, m, table)
}

// Whether the lower tip lies no lower than this height, lifted: what lies under it can't block the tool then.
fn is_under(z: f64, m: Chord) -> bool
    ensures { result ≡ is_under z m }
{
    let lift = m.lift;
    z + lift <= numbers::min(m.az, m.bz)
}
