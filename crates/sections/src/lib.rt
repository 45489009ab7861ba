// The section questions over a lent slice of sections: thin functions over those of a flat table.
#![tactic(auto)]

ghost use Rattle.std.specs.Prelude.{◌≡◌, ◌≤◌, length};
ghost use Rattle.grid.specs.Index.{index_of};
ghost use Rattle.ask.specs.Ask.{ended, answer_told, ruling_told};
ghost use Rattle.tips.specs.Contact.{max_sections_of, SectionsPromise};
ghost use Rattle.chords.specs.Chords.{sections_chord_of, SectionsChordPromise};
ghost use Rattle.flatten.specs.Flat.{flat_of, held_in};

use ask::{Answer, Ruling};
use flatten::Table;
use grid::Header;
use reach::Chord;
use refusals::Refusal;
use section::Section;

// The highest tip of a tool of the sections at (px, py), or why the question is refused.
pub fn max_sections(
    mesh: &[f64],
    h: Header,
    starts: &[u32],
    members: &[u32],
    boxes: &[f64],
    marks: &mut [u32],
    stamp: u32,
    px: f64,
    py: f64,
    sections: &[Section],
) -> Result<Answer, Refusal>
    ensures marks_after { ended (answer_told result stamp) marks.new
        ≡ max_sections_of (index_of mesh.now h starts.now members.now boxes.now)
        marks.old stamp px py (flat_of sections.now) }
    ensures sections_promise { SectionsPromise (index_of mesh.now h starts.now members.now boxes.now)
        marks.old stamp px py (flat_of sections.now) (answer_told result stamp) }
{
    let t = flatten::flat(sections);
    max_over(mesh, h, starts, members, boxes, marks, stamp, px, py, t)
}

// Whether a tool of the sections is clear from the tip a to the tip b, or why the question is refused.
pub fn sections_chord_clear(
    mesh: &[f64],
    h: Header,
    starts: &[u32],
    members: &[u32],
    boxes: &[f64],
    marks: &mut [u32],
    stamp: u32,
    m: Chord,
    sections: &[Section],
) -> Result<Ruling, Refusal>
    ensures marks_after { ended (ruling_told result stamp) marks.new
        ≡ sections_chord_of (index_of mesh.now h starts.now members.now boxes.now)
        marks.old stamp m (flat_of sections.now) }
    ensures sections_chord_promise { SectionsChordPromise (index_of mesh.now h starts.now members.now boxes.now)
        marks.old stamp m (flat_of sections.now) (ruling_told result stamp) }
{
    let t = flatten::flat(sections);
    chord_over(mesh, h, starts, members, boxes, marks, stamp, m, t)
}

// The highest tip of a tool of the sections whose numbers a table holds.
fn max_over(
    mesh: &[f64],
    h: Header,
    starts: &[u32],
    members: &[u32],
    boxes: &[f64],
    marks: &mut [u32],
    stamp: u32,
    px: f64,
    py: f64,
    t: Table,
) -> Result<Answer, Refusal>
    requires { t.count ≤ length t.numbers }
    ensures { ended (answer_told result stamp) marks.new
        ≡ max_sections_of (index_of mesh.now h starts.now members.now boxes.now)
        marks.old stamp px py (held_in t) }
{
    let numbers = t.numbers;
    let n = t.count;
    tips::max_sections(
        mesh,
        h,
        starts,
        members,
        boxes,
        marks,
        stamp,
        px,
        py,
        &numbers[..n],
    )
}

// Whether a tool of the sections whose numbers a table holds is clear.
fn chord_over(
    mesh: &[f64],
    h: Header,
    starts: &[u32],
    members: &[u32],
    boxes: &[f64],
    marks: &mut [u32],
    stamp: u32,
    m: Chord,
    t: Table,
) -> Result<Ruling, Refusal>
    requires { t.count ≤ length t.numbers }
    ensures { ended (ruling_told result stamp) marks.new
        ≡ sections_chord_of (index_of mesh.now h starts.now members.now boxes.now)
        marks.old stamp m (held_in t) }
{
    let numbers = t.numbers;
    let n = t.count;
    chords::sections_chord_clear(
        mesh,
        h,
        starts,
        members,
        boxes,
        marks,
        stamp,
        m,
        &numbers[..n],
    )
}
