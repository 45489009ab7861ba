// What every question shares: its refusals in their order, and its answer.
#![tactic(auto)]

ghost use Rattle.std.specs.Prelude.{◌≡◌, ◌≤◌, length, IfOk};
ghost use Rattle.walk.specs.Inside.{StandsFor};
ghost use Rattle.grid.specs.Index.{index_of};
ghost use Rattle.query.specs.Looked.{within};
ghost use Rattle.refusals.specs.Numbers.{code_of};
ghost use Rattle.ask.specs.Ask.{is_corner, refusal_of, finding_number, ruling_told};
ghost use Rattle.ask.specs.Demand.{GoodAccepted};

use grid::Header;
use query::Patch;
use refusals::Refusal;

// A height question's answer: the height, how many triangles were looked at, and the stamp; then the triangle that last raised the height and what of it
// is touched, its kind and which of three, all 0 for the floor.
#[derive(Clone, Copy)]
pub struct Answer {
    pub height: f64,
    pub count: u32,
    pub stamp: u32,
    pub triangle: u32,
    pub kind: u32,
    pub which: u32,
}

// A chord question's answer: whether the tool is clear or else blocked, how many triangles were looked at, and the stamp.
#[derive(Clone, Copy)]
pub struct Ruling {
    pub clear: bool,
    pub count: u32,
    pub stamp: u32,
}

// The first refusal of a question with the cells p, or how many numbers of the list stand for those of the cells, 2,049 if they were too many for it:
// `numbers` and `tool` say whether its numbers and its tool are in their ranges. The list has 2,048 places.
#[tactic(auto, using(rules::proofs::Ladder::demand_here, rules::proofs::Ladder::demand_next), unfolding(crate::specs::Ask::refusal_of, refusals::specs::Numbers::code_of, refusals::specs::Numbers::number_of))]
pub fn refusal(
    mesh: &[f64],
    h: Header,
    starts: &[u32],
    members: &[u32],
    boxes: &[f64],
    marks: &[u32],
    stamp: u32,
    p: Patch,
    numbers: bool,
    tool: bool,
    list: &mut [u32],
) -> Result<u32, Refusal>
    requires { (p.x1 ≤ h.columns) × (p.y1 ≤ h.rows) × (length list.old ≡ 2048) }
    ensures refusal_value { code_of result
        ≡ refusal_of numbers tool (index_of mesh.now h starts.now members.now boxes.now) marks.now stamp p }
    ensures good_accepted { GoodAccepted numbers tool (index_of mesh.now h starts.now members.now boxes.now)
        marks.now stamp (code_of result) }
    ensures stands_for { IfOk result (λ count. count ≤ 2048 → StandsFor h.n
        (within (index_of mesh.now h starts.now members.now boxes.now) p) list.new count) }
{
    if !query::is_marked(mesh, marks) {
        return Err(Refusal::Length);
    }
    if !grid::is_boxed(mesh, boxes) {
        return Err(Refusal::Boxes);
    }
    if !numbers {
        return Err(Refusal::Number);
    }
    if !tool {
        return Err(Refusal::Tool);
    }
    match query::usable(mesh, h, starts, members, boxes, marks, stamp, p, list) {
        Some(count) => Ok(count),
        None => Err(Refusal::Index),
    }
}

// Whether rc is from 0 to r.
pub fn is_corner(r: f64, rc: f64) -> bool
    ensures { result ≡ is_corner r rc }
{
    0.0 <= rc && rc <= r
}

// The number of a verdict: 1 for clear, 2 for blocked, and 0 where the question is refused.
#[tactic(auto, unfolding(crate::specs::Ask::finding_number))]
pub fn finding_number(answer: &Result<Ruling, Refusal>) -> u32
    ensures { result ≡ finding_number (ruling_told answer.now 0).finding }
{
    match answer {
        Ok(ruling) => { if ruling.clear { 1 } else { 2 } }
        Err(_) => 0,
    }
}
