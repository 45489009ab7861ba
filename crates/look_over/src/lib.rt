// Looks over another planner's moves: every rapid clear by the section chord rule, every cut at one height and not too deep. The moves are read one at a time
// where they stand in their bytes, and refusal 7 is tested once, over the whole grid, for all of them.
#![tactic(auto)]

ghost use Rattle.std.specs.Prelude.{◌≡◌, true, cond, eqb, length, replicate};
ghost use Rattle.std.specs.Float.{binary64};
ghost use Rattle.std.specs.Float.Ieee.{to_bits, le};
ghost use Rattle.fields.specs.Little.{value};
ghost use Rattle.refusals.specs.Numbers.{code_of};
ghost use Rattle.grid.specs.Boxes.{is_boxed};
ghost use Rattle.grid.specs.Index.{index_of};
ghost use Rattle.plane.specs.Ranges.{is_point};
ghost use Rattle.probe.specs.Inside.{Marked};
ghost use Rattle.tool.specs.Tool.{sections_in, widest_of, lowest_of};
ghost use Rattle.paths.specs.Layout.{count};
ghost use Rattle.paths.specs.Reader.{Sound as Listed};
ghost use Rattle.look_over.specs.Look.{fault_of_rapid, fault_of_cut, fault_of};
ghost use Rattle.look_over.specs.Verdict.{is_place, are_places, is_tolerance, refusal_of_tool, refusal_of_numbers, refusal_of, ended, told, verdict_of};
ghost use Rattle.look_over.specs.Verdict.{look_over_of, verdict_number, bad_number, fault_number, reason_number, Judged, OwnCutsPass};
ghost use Rattle.look_over.specs.Inside.{is_sound, Indexed, Answerable, Readable, Placed};

use grid::Header;
use paths::{Kind, Move, Point};
use reach::Chord;
use refusals::Refusal;

// Why a move is bad.
#[derive(Clone, Copy)]
pub enum Fault {
    Sound,
    BlockedRapid,
    ChangedZ,
    TooDeep,
}

// What is said of a list of moves: nothing where it is refused, that it passes, or its first bad move with the reason.
#[derive(Clone, Copy)]
pub enum Verdict {
    Unsaid,
    Passes,
    Fails(u32, Fault),
}

// What is wrong with a move, and the stamp after its walk.
#[derive(Clone, Copy)]
pub struct Tried {
    pub fault: Fault,
    pub stamp: u32,
}

const COARSEST: f64 = 0.01;

const FINEST: f64 = 1e-7;

// Whether a list of moves passes, or its first bad move; or why it is refused. The marks are untouched by a refusal, and else wiped.
pub fn look_over(
    bytes: &[u8],
    mesh: &[f64],
    h: Header,
    starts: &[u32],
    members: &[u32],
    boxes: &[f64],
    marks: &mut [u32],
    table: &[f64],
    tolerance: f64,
) -> Result<Verdict, Refusal>
    ensures marks_after { ended (told result) marks.new
        ≡ look_over_of bytes.now (index_of mesh.now h starts.now members.now boxes.now)
        marks.old table.now tolerance }
    ensures judged { (told result).refusal ≡ 0 → Judged bytes.now
        (index_of mesh.now h starts.now members.now boxes.now)
        table.now tolerance (told result).verdict }
    ensures own_cuts_pass { OwnCutsPass
        (index_of mesh.now h starts.now members.now boxes.now) table.now tolerance }
{
    refusal(
        bytes, mesh, h, starts, members, boxes, marks, table, tolerance,
    )?;
    Ok(work(
        bytes, mesh, h, starts, members, boxes, marks, table, tolerance,
    ))
}

// The file's refusals, else those of what it is looked over with.
fn refusal(
    bytes: &[u8],
    mesh: &[f64],
    h: Header,
    starts: &[u32],
    members: &[u32],
    boxes: &[f64],
    marks: &[u32],
    table: &[f64],
    tolerance: f64,
) -> Result<(), Refusal>
    ensures { code_of result ≡ refusal_of bytes.now (index_of mesh.now h starts.now members.now boxes.now)
        marks.now table.now tolerance }
{
    paths::refusal(bytes)?;
    refusal_of_numbers(
        bytes, mesh, h, starts, members, boxes, marks, table, tolerance,
    )
}

// 1, 23 and 2, else what the tool and the index decide.
#[tactic(auto, using(rules::proofs::Ladder::ladder), unfolding(crate::specs::Verdict::refusal_of_numbers, refusals::specs::Numbers::code_of, refusals::specs::Numbers::number_of))]
fn refusal_of_numbers(
    bytes: &[u8],
    mesh: &[f64],
    h: Header,
    starts: &[u32],
    members: &[u32],
    boxes: &[f64],
    marks: &[u32],
    table: &[f64],
    tolerance: f64,
) -> Result<(), Refusal>
    requires { Listed bytes.now }
    ensures { code_of result ≡ refusal_of_numbers bytes.now (index_of mesh.now h starts.now members.now boxes.now)
        marks.now table.now tolerance }
{
    if !query::is_marked(mesh, marks) {
        return Err(Refusal::Length);
    }
    if !grid::is_boxed(mesh, boxes) {
        return Err(Refusal::Boxes);
    }
    if !is_tolerance(tolerance) {
        return Err(Refusal::Number);
    }
    if !are_places(bytes) {
        return Err(Refusal::Number);
    }
    refusal_of_tool(mesh, h, starts, members, boxes, table)
}

// 8 and 7.
#[tactic(auto, using(rules::proofs::Ladder::ladder), unfolding(crate::specs::Verdict::refusal_of_tool, refusals::specs::Numbers::code_of, refusals::specs::Numbers::number_of))]
fn refusal_of_tool(
    mesh: &[f64],
    h: Header,
    starts: &[u32],
    members: &[u32],
    boxes: &[f64],
    table: &[f64],
) -> Result<(), Refusal>
    requires { is_boxed mesh.now boxes.now ≡ true }
    ensures { code_of result ≡ refusal_of_tool
        (index_of mesh.now h starts.now members.now boxes.now) table.now }
{
    if !tool::is_tool(table) {
        return Err(Refusal::Tool);
    }
    if !whole::usable_whole(mesh, h, starts, members, boxes) {
        return Err(Refusal::Index);
    }
    Ok(())
}

// Whether a tolerance is from 1e-7 to 0.01.
fn is_tolerance(t: f64) -> bool
    ensures { result ≡ is_tolerance t }
{
    FINEST <= t && t <= COARSEST
}

// Whether the coordinates of a point are in their range.
fn is_place(p: Point) -> bool
    ensures { result ≡ is_place p }
{
    chords::is_end(p.x, p.y, p.z)
}

// Whether those of every point of a list are.
fn are_places(bytes: &[u8]) -> bool
    requires { Listed bytes.now }
    ensures { result ≡ are_places bytes.now (value count bytes.now) }
{
    let n = paths::count(bytes) as usize + 1;
    for p in 0..n {
        if !is_place(paths::point_at(bytes, p)) {
            return false;
        }
    }
    true
}

// The verdict where nothing is left to refuse; the marks are wiped before and after.
fn work(
    bytes: &[u8],
    mesh: &[f64],
    h: Header,
    starts: &[u32],
    members: &[u32],
    boxes: &[f64],
    marks: &mut [u32],
    table: &[f64],
    tolerance: f64,
) -> Verdict
    requires { Readable bytes.now × Answerable (index_of mesh.now h starts.now members.now boxes.now) table.now × (length marks.old ≡ h.n) }
    ensures { (result ≡ verdict_of bytes.now (index_of mesh.now h starts.now members.now boxes.now)
        table.now tolerance) × (marks.new ≡ replicate (length marks.old) 0) }
{
    walk::wipe(marks);
    let v = first_bad(
        bytes, mesh, h, starts, members, boxes, marks, table, tolerance,
    );
    walk::wipe(marks);
    v
}

// The first bad move, if there is one.
fn first_bad(
    bytes: &[u8],
    mesh: &[f64],
    h: Header,
    starts: &[u32],
    members: &[u32],
    boxes: &[f64],
    marks: &mut [u32],
    table: &[f64],
    tolerance: f64,
) -> Verdict
    requires { Readable bytes.now × Answerable (index_of mesh.now h starts.now members.now boxes.now) table.now × Marked h.n 0 marks.old }
    ensures { (result ≡ verdict_of bytes.now (index_of mesh.now h starts.now members.now boxes.now)
        table.now tolerance) × (length marks.new ≡ length marks.old) }
{
    let n = paths::count(bytes);
    let reach = tool::widest(table);
    let low = tool::lowest(table);
    let mut stamp = 0;
    for t in 0..n {
        let m = paths::move_at(bytes, t as usize);
        let a = try_move(
            mesh, h, starts, members, boxes, marks, stamp, m, reach, low, table, tolerance,
        );
        let fault = a.fault;
        if !is_sound(fault) {
            return Verdict::Fails(t, fault);
        }
        stamp = a.stamp;
    }
    Verdict::Passes
}

fn is_sound(f: Fault) -> bool
    ensures { result ≡ is_sound f }
{
    match f {
        Fault::Sound => true,
        Fault::BlockedRapid => false,
        Fault::ChangedZ => false,
        Fault::TooDeep => false,
    }
}

// The test of one move, by its kind; reach and low are the tool's largest r1 and lowest z0.
fn try_move(
    mesh: &[f64],
    h: Header,
    starts: &[u32],
    members: &[u32],
    boxes: &[f64],
    marks: &mut [u32],
    stamp: u32,
    m: Move,
    reach: f64,
    low: f64,
    table: &[f64],
    tolerance: f64,
) -> Tried
    requires answerable { Answerable (index_of mesh.now h starts.now members.now boxes.now) table.now × Marked h.n stamp marks.old × Placed m }
    requires reach_value { (reach ≡ widest_of table.now (sections_in table.now)) × (low ≡ lowest_of table.now (sections_in table.now)) }
    ensures { (result.fault ≡ fault_of
        (index_of mesh.now h starts.now members.now boxes.now) table.now tolerance m)
        × Marked h.n result.stamp marks.new }
{
    let kind = m.kind;
    match kind {
        Kind::Rapid => rapid(
            mesh, h, starts, members, boxes, marks, stamp, m, reach, low, table,
        ),
        Kind::Cut => cut(mesh, h, starts, members, boxes, marks, stamp, m, tolerance),
    }
}

// A rapid, asked as a chord with lift 0.
fn rapid(
    mesh: &[f64],
    h: Header,
    starts: &[u32],
    members: &[u32],
    boxes: &[f64],
    marks: &mut [u32],
    stamp: u32,
    m: Move,
    reach: f64,
    low: f64,
    table: &[f64],
) -> Tried
    requires answerable { Answerable (index_of mesh.now h starts.now members.now boxes.now) table.now × Marked h.n stamp marks.old × Placed m }
    requires reach_value { (reach ≡ widest_of table.now (sections_in table.now)) × (low ≡ lowest_of table.now (sections_in table.now)) }
    ensures { (result.fault ≡ fault_of_rapid
        (index_of mesh.now h starts.now members.now boxes.now) table.now m)
        × Marked h.n result.stamp marks.new }
{
    let a = m.start;
    let b = m.end;
    let p = query::patch_of(h, a.x, a.y, b.x, b.y, reach);
    let c = Chord {
        ax: a.x,
        ay: a.y,
        az: a.z,
        bx: b.x,
        by: b.y,
        bz: b.z,
        lift: 0.0,
    };
    let r = chords::tool_ruling(
        mesh, h, starts, members, boxes, marks, stamp, p, c, low, table,
    );
    Tried {
        fault: fault_of(r.clear),
        stamp: r.stamp,
    }
}

fn fault_of(clear: bool) -> Fault
    ensures { result ≡ cond clear Fault.Sound Fault.BlockedRapid }
{
    if clear {
        Fault::Sound
    } else {
        Fault::BlockedRapid
    }
}

// A cut: its z first, then the height under it.
fn cut(
    mesh: &[f64],
    h: Header,
    starts: &[u32],
    members: &[u32],
    boxes: &[f64],
    marks: &mut [u32],
    stamp: u32,
    m: Move,
    tolerance: f64,
) -> Tried
    requires { Indexed (index_of mesh.now h starts.now members.now boxes.now) × Marked h.n stamp marks.old × Placed m }
    ensures { (result.fault ≡ fault_of_cut (index_of mesh.now h starts.now members.now boxes.now) tolerance m)
        × Marked h.n result.stamp marks.new }
{
    let a = m.start;
    let b = m.end;
    if !same_bits(a.z, b.z) {
        return Tried {
            fault: Fault::ChangedZ,
            stamp,
        };
    }
    let s = height::swept_height(
        mesh, h, starts, members, boxes, marks, stamp, a.x, a.y, b.x, b.y, h.r,
    );
    let best = s.best;
    Tried {
        fault: depth(best.height, a.z + tolerance),
        stamp: s.stamp,
    }
}

// Whether two numbers are the same bit for bit.
fn same_bits(x: f64, y: f64) -> bool
    requires { (is_point x ≡ true) × (is_point y ≡ true) }
    ensures { result ≡ eqb (to_bits binary64 x) (to_bits binary64 y) }
{
    f64::to_bits(x) == f64::to_bits(y)
}

fn depth(height: f64, most: f64) -> Fault
    ensures { result ≡ cond (le height most) Fault.Sound Fault.TooDeep }
{
    if height <= most {
        return Fault::Sound;
    }
    Fault::TooDeep
}

// The numbers of a verdict, as C gets them.
pub fn verdict_number(v: Verdict) -> u32
    ensures { result ≡ verdict_number v }
{
    match v {
        Verdict::Unsaid => 0,
        Verdict::Passes => 1,
        Verdict::Fails(_, _) => 2,
    }
}

pub fn bad_number(v: Verdict) -> u32
    ensures { result ≡ bad_number v }
{
    match v {
        Verdict::Unsaid => 0,
        Verdict::Passes => 0,
        Verdict::Fails(t, _) => t,
    }
}

pub fn reason_number(v: Verdict) -> u32
    ensures { result ≡ reason_number v }
{
    match v {
        Verdict::Unsaid => 0,
        Verdict::Passes => 0,
        Verdict::Fails(_, f) => fault_number(f),
    }
}

fn fault_number(f: Fault) -> u32
    ensures { result ≡ fault_number f }
{
    match f {
        Fault::Sound => 0,
        Fault::BlockedRapid => 1,
        Fault::ChangedZ => 2,
        Fault::TooDeep => 3,
    }
}
