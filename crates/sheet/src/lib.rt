// A tool's sections from its sheet: camlib's `sections_of`, with the tip height and the radii above the cutting length and the neck handed in.
//
// Every reason to refuse is looked for before the first section is written, so a refused sheet leaves the lent table as it was.
#![tactic(auto)]

ghost use Rattle.std.specs.Prelude.{◌≡◌, true, ◌&&◌, [], ◌∷◌, min, ◌+◌, ◌*◌, ◌/◌, ◌^◌, ◌≤◌, ◌<◌, length, take};
ghost use Rattle.fields.specs.Rows.{all_finite};
ghost use Rattle.refusals.specs.Numbers.{code_of};
ghost use Rattle.tool.specs.Tool.{is_tool};
ghost use Rattle.sheet.specs.Enclosing.{is_curved, Encloses};
ghost use Rattle.sheet.specs.Sheet.{shape_number, shape_from, cylinder_of, radius_of, enclosed_of, chamfer_of, drill_of, end_of, below_of};
ghost use Rattle.sheet.specs.Sheet.{neck_of, body_of, holder_of, holder_at, holders_from, listed, sections_of, numbers_of, all_valid};
ghost use Rattle.sheet.specs.Sheet.{refusal_of_list, refusal_of_end, refusal_of, told, ended, placed, sheet_of};

use refusals::Refusal;
use section::Section;

// The shapes of a cutter's end.
#[derive(Clone, Copy)]
pub enum Shape {
    Flat,
    Ball,
    Bull,
    Drill,
    Chamfer,
    Beam,
}

// The numbers of a sheet: the radii are those just above the cutting length and just above the neck, the tip height that at the full
// radius.
#[derive(Clone, Copy)]
pub struct Sheet {
    pub diameter: f64,
    pub tip_diameter: f64,
    pub tip_height: f64,
    pub cutting_length: f64,
    pub stickout: f64,
    pub neck_length: f64,
    pub above_cut: f64,
    pub above_neck: f64,
}

// What stands below the holders.
#[derive(Clone, Copy)]
pub struct Body {
    pub end: Option<Section>,
    pub cut: Option<Section>,
    pub neck: Option<Section>,
}

// Puts the sections of a tool into a lent table of four numbers each, at most 32; entries beyond those stay unchanged.
pub fn sections_of(
    shape: Shape,
    enclose: bool,
    neck: bool,
    p: Sheet,
    holders: &[f64],
    sections: &mut [f64],
) -> Result<u32, Refusal>
    ensures sections_after { ended (told result) sections.new ≡ sheet_of shape enclose neck p holders.now sections.old }
    ensures sections_after_2 { (told result).refusal ≡ 0 → is_tool (take (4 * (told result).count) sections.new) ≡ true }
    ensures encloses { (told result).refusal ≡ 0 → is_curved shape ≡ true → Encloses (radius_of p) sections.new }
{
    let b = body_of(shape, enclose, neck, p);
    refusal(p, b, holders, sections.len())?;
    let n = put_all(b, holders, sections);
    Ok(n as u32)
}

// The shape of a number.
pub fn shape_from(n: u32) -> Shape
    ensures value { result ≡ shape_from n }
    ensures result_value { shape_number result ≡ min n 5 }
{
    match n {
        0 => Shape::Flat,
        1 => Shape::Ball,
        2 => Shape::Bull,
        3 => Shape::Drill,
        4 => Shape::Chamfer,
        _ => Shape::Beam,
    }
}

// What stands below the holders.
fn body_of(shape: Shape, enclose: bool, neck: bool, p: Sheet) -> Body
    ensures { result ≡ body_of shape enclose neck p }
{
    let end = end_of(shape, enclose, p);
    let cut = below(p.cutting_length, p.above_cut, p.stickout);
    let neck = neck_of(neck, p);
    Body { end, cut, neck }
}

// The end's section, if one covers it.
#[tactic(auto, unfolding(crate::specs::Sheet::end_of))]
fn end_of(shape: Shape, enclose: bool, p: Sheet) -> Option<Section>
    ensures { result ≡ end_of shape enclose p }
{
    match shape {
        Shape::Flat => Some(cylinder(0.0, p.diameter / 2.0)),
        Shape::Ball => enclosed(enclose, p),
        Shape::Bull => enclosed(enclose, p),
        Shape::Drill => Some(drill(p)),
        Shape::Chamfer => Some(chamfer(p)),
        Shape::Beam => None,
    }
}

// The flat end that holds a curved one, where it is asked for.
#[tactic(auto, unfolding(crate::specs::Sheet::enclosed_of))]
fn enclosed(enclose: bool, p: Sheet) -> Option<Section>
    ensures { result ≡ enclosed_of enclose p }
{
    if enclose {
        return Some(cylinder(0.0, p.diameter / 2.0));
    }
    None
}

// A drill's end.
fn drill(p: Sheet) -> Section
    ensures { result ≡ drill_of p }
{
    let radius = p.diameter / 2.0;
    Section {
        z0: 0.0,
        r0: 0.0,
        r1: radius,
        rise: p.tip_height / radius,
    }
}

// A chamfer's end.
fn chamfer(p: Sheet) -> Section
    ensures { result ≡ chamfer_of p }
{
    let radius = p.diameter / 2.0;
    let r0 = p.tip_diameter / 2.0;
    Section {
        z0: 0.0,
        r0,
        r1: radius,
        rise: p.tip_height / (radius - r0),
    }
}

// A cylinder of the radius r from z0 on.
fn cylinder(z0: f64, r: f64) -> Section
    ensures { result ≡ cylinder_of z0 r }
{
    Section {
        z0,
        r0: r,
        r1: r,
        rise: 0.0,
    }
}

// A cylinder at z0, where that lies below the stickout.
#[tactic(auto, unfolding(crate::specs::Sheet::below_of))]
fn below(z0: f64, r: f64, stickout: f64) -> Option<Section>
    ensures { result ≡ below_of z0 r stickout }
{
    if z0 < stickout {
        return Some(cylinder(z0, r));
    }
    None
}

// The cylinder at the neck's end, if there is a neck.
#[tactic(auto, unfolding(crate::specs::Sheet::neck_of))]
fn neck_of(neck: bool, p: Sheet) -> Option<Section>
    ensures { result ≡ neck_of neck p }
{
    if neck {
        return below(p.cutting_length + p.neck_length, p.above_neck, p.stickout);
    }
    None
}

// A holder, widening or not.
fn holder(low: f64, high: f64, r0: f64, r1: f64) -> Section
    ensures { result ≡ holder_of low high r0 r1 }
{
    if r1 > r0 {
        return Section {
            z0: low,
            r0,
            r1,
            rise: (high - low) / (r1 - r0),
        };
    }
    cylinder(low, r0)
}

// Holder i of a table.
fn holder_at(holders: &[f64], i: usize) -> Section
    requires { 4 * i + 4 ≤ length holders.now }
    ensures { result ≡ holder_at holders.now i }
{
    let k = 4 * i;
    holder(holders[k], holders[k + 1], holders[k + 2], holders[k + 3])
}

// 1 and 2, else what the end decides.
#[tactic(auto, using(rules::proofs::Ladder::ladder), unfolding(crate::specs::Sheet::refusal_of, refusals::specs::Numbers::code_of, refusals::specs::Numbers::number_of))]
fn refusal(p: Sheet, b: Body, holders: &[f64], room: usize) -> Result<(), Refusal>
    ensures { code_of result ≡ refusal_of p b holders.now room }
{
    if holders.len() % 4 != 0 {
        return Err(Refusal::Length);
    }
    if !sheet_finite(p) {
        return Err(Refusal::Number);
    }
    if !fields::all_finite(holders) {
        return Err(Refusal::Number);
    }
    refusal_of_end(b, holders, room)
}

// 24, else what the list decides.
#[tactic(auto, using(rules::proofs::Ladder::ladder), unfolding(crate::specs::Sheet::refusal_of_end, crate::specs::Sheet::is_absent, refusals::specs::Numbers::code_of, refusals::specs::Numbers::number_of))]
fn refusal_of_end(b: Body, holders: &[f64], room: usize) -> Result<(), Refusal>
    ensures { code_of result ≡ refusal_of_end b holders.now room }
{
    match b.end {
        None => Err(Refusal::Shape),
        Some(_) => refusal_of_list(b, holders, room),
    }
}

// 8 and 25.
fn refusal_of_list(b: Body, holders: &[f64], room: usize) -> Result<(), Refusal>
    ensures { code_of result ≡ refusal_of_list (sections_of b holders.now) room }
{
    let n = count(b, holders.len() / 4);
    if n > 32 {
        return Err(Refusal::Tool);
    }
    if !valid_body(b) {
        return Err(Refusal::Tool);
    }
    if !valid_holders(holders) {
        return Err(Refusal::Tool);
    }
    if 4 * n > room {
        return Err(Refusal::Sections);
    }
    Ok(())
}

// Whether every number of a sheet is finite.
fn sheet_finite(p: Sheet) -> bool
    ensures { result ≡ all_finite (numbers_of p) }
{
    let numbers = [
        p.diameter,
        p.tip_diameter,
        p.tip_height,
        p.cutting_length,
        p.stickout,
        p.neck_length,
        p.above_cut,
        p.above_neck,
    ];
    fields::all_finite(&numbers)
}

// How many sections there are, with n holders.
fn count(b: Body, n: usize) -> usize
    requires { n < 2 ^ 62 }
    ensures { result ≡ length (listed b.end) + (length (listed b.cut) + (length (listed b.neck) + n)) }
{
    let end = b.end;
    let cut = b.cut;
    let neck = b.neck;
    one(end) + (one(cut) + (one(neck) + n))
}

// How many sections a part has.
#[tactic(auto, unfolding(crate::specs::Sheet::listed))]
fn one(part: Option<Section>) -> usize
    ensures { (result ≡ length (listed part)) × (result ≤ 1) }
{
    match part {
        None => 0,
        Some(_) => 1,
    }
}

// Whether every section below the holders is valid.
fn valid_body(b: Body) -> bool
    ensures { result ≡ (all_valid (listed b.end) && (all_valid (listed b.cut) && all_valid (listed b.neck))) }
{
    let end = b.end;
    let cut = b.cut;
    let neck = b.neck;
    valid_part(end) && (valid_part(cut) && valid_part(neck))
}

// Whether a part has no section that is invalid.
#[tactic(auto, unfolding(crate::specs::Sheet::listed, crate::specs::Sheet::all_valid))]
fn valid_part(part: Option<Section>) -> bool
    ensures { result ≡ all_valid (listed part) }
{
    match part {
        None => true,
        Some(s) => section::valid(s),
    }
}

// Whether every holder is valid.
fn valid_holders(holders: &[f64]) -> bool
    ensures { result ≡ all_valid (holders_from holders.now 0 (length holders.now / 4)) }
{
    let n = holders.len() / 4;
    // by index: a holder is four numbers of the table, which `holder_at` reads by its place
    for i in 0..n {
        if !section::valid(holder_at(holders, i)) {
            return false;
        }
    }
    true
}

// Writes the list, and answers how many sections it has.
fn put_all(b: Body, holders: &[f64], sections: &mut [f64]) -> usize
    requires { 4 * length (sections_of b holders.now) ≤ length sections.old }
    ensures { (result ≡ length (sections_of b holders.now))
        × (sections.new ≡ placed (sections_of b holders.now) 0 sections.old) }
{
    let end = b.end;
    let cut = b.cut;
    let neck = b.neck;
    let i = put(end, 0, sections);
    let j = put(cut, i, sections);
    let k = put(neck, j, sections);
    put_holders(holders, k, sections)
}

// Writes a part's section as section `at` of the table, and answers where the next one goes.
fn put(part: Option<Section>, at: usize, sections: &mut [f64]) -> usize
    requires { 4 * (at + length (listed part)) ≤ length sections.old }
    ensures { (result ≡ at + length (listed part)) × (sections.new ≡ placed (listed part) at sections.old) }
{
    match part {
        None => at,
        Some(s) => {
            store(s, at, sections);
            at + 1
        }
    }
}

// Writes every holder from section `at` of the table on.
fn put_holders(holders: &[f64], at: usize, sections: &mut [f64]) -> usize
    requires { 4 * (at + length holders.now / 4) ≤ length sections.old }
    ensures { (result ≡ at + length holders.now / 4)
        × (sections.new ≡ placed (holders_from holders.now 0 (length holders.now / 4)) at sections.old) }
{
    let n = holders.len() / 4;
    // by index: holder i stands in the list at a place of its own
    for i in 0..n {
        store(holder_at(holders, i), at + i, sections);
    }
    at + n
}

// Writes section `at` of a table.
fn store(s: Section, at: usize, sections: &mut [f64])
    requires { 4 * (at + 1) ≤ length sections.old }
    ensures { sections.new ≡ placed (s ∷ []) at sections.old }
{
    let k = 4 * at;
    sections[k] = s.z0;
    sections[k + 1] = s.r0;
    sections[k + 2] = s.r1;
    sections[k + 3] = s.rise;
}
