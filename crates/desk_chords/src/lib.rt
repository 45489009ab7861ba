// What C and Rust call of chords: include/mandrikelo.h declares these functions. Each hands its arguments to the library and lays the verdict into a
// fixed array; the contract is the library's own, and asks nothing of the caller.
#![tactic(auto)]

ghost use Rattle.std.specs.Prelude.{◌≡◌};
ghost use Rattle.handed.specs.Handed.{index_from};
ghost use Rattle.chords.specs.Chords.{bull_chord_of, BullChordPromise, sections_chord_of, SectionsChordPromise};
ghost use Rattle.desk_chords.specs.Verdicts.{verdict_left, verdict_left_by, ruling_from, Laid};
ghost use Rattle.ask.specs.Ask.{ruling_told};

use ask::Ruling;
use reach::Chord;
use refusals::Refusal;

// Whether a bull-nose cutter, lifted, stays clear of the part from tip a to tip b.
#[unsafe(no_mangle)]
pub extern "C" fn mandrikelo_bull_chord_clear(
    mesh: &[f64],
    measures: &[f64; 6],
    sizes: &[u32; 3],
    starts: &[u32],
    members: &[u32],
    boxes: &[f64],
    marks: &mut [u32],
    stamp: u32,
    ax: f64,
    ay: f64,
    az: f64,
    bx: f64,
    by: f64,
    bz: f64,
    r: f64,
    rc: f64,
    lift: f64,
    counts: &mut [u32; 3],
) -> u32
    ensures counts_after { verdict_left result marks.new counts.new
        ≡ verdict_left_by (bull_chord_of
        (index_from mesh.now measures.now sizes.now starts.now members.now
        boxes.now)
        marks.old stamp (record { ax = ax; ay = ay; az = az; bx = bx; by = by; bz = bz; lift = lift }) r rc) }
    ensures bull_chord_promise { BullChordPromise
        (index_from mesh.now measures.now sizes.now starts.now members.now
        boxes.now)
        marks.old stamp (record { ax = ax; ay = ay; az = az; bx = bx; by = by; bz = bz; lift = lift }) r rc
        (ruling_from result counts.new) }
{
    let m = Chord {
        ax: ax,
        ay: ay,
        az: az,
        bx: bx,
        by: by,
        bz: bz,
        lift: lift,
    };
    let a = chords::bull_chord_clear(
        mesh,
        handed::header_from(measures, sizes),
        starts,
        members,
        boxes,
        marks,
        stamp,
        m,
        r,
        rc,
    );
    lay(a, stamp, counts)
}

// Whether a tool of sections, lifted, stays clear of the part from tip a to tip b.
#[unsafe(no_mangle)]
pub extern "C" fn mandrikelo_sections_chord_clear(
    mesh: &[f64],
    measures: &[f64; 6],
    sizes: &[u32; 3],
    starts: &[u32],
    members: &[u32],
    boxes: &[f64],
    marks: &mut [u32],
    stamp: u32,
    ax: f64,
    ay: f64,
    az: f64,
    bx: f64,
    by: f64,
    bz: f64,
    lift: f64,
    sections: &[f64],
    counts: &mut [u32; 3],
) -> u32
    ensures counts_after { verdict_left result marks.new counts.new
        ≡ verdict_left_by (sections_chord_of
        (index_from mesh.now measures.now sizes.now starts.now members.now
        boxes.now)
        marks.old stamp (record { ax = ax; ay = ay; az = az; bx = bx; by = by; bz = bz; lift = lift }) sections.now) }
    ensures sections_chord_promise { SectionsChordPromise
        (index_from mesh.now measures.now sizes.now starts.now members.now
        boxes.now)
        marks.old stamp (record { ax = ax; ay = ay; az = az; bx = bx; by = by; bz = bz; lift = lift }) sections.now
        (ruling_from result counts.new) }
{
    let m = Chord {
        ax: ax,
        ay: ay,
        az: az,
        bx: bx,
        by: by,
        bz: bz,
        lift: lift,
    };
    let a = chords::sections_chord_clear(
        mesh,
        handed::header_from(measures, sizes),
        starts,
        members,
        boxes,
        marks,
        stamp,
        m,
        sections,
    );
    lay(a, stamp, counts)
}

// Lays a verdict into C's array: a refusal leaves none, no count, and the stamp as handed.
#[tactic(auto, unfolding(ask::specs::Ask::finding_number))]
fn lay(a: Result<Ruling, Refusal>, stamp: u32, counts: &mut [u32; 3]) -> u32
    ensures { Laid result counts.new (ruling_told a stamp) }
{
    let finding = ask::finding_number(&a);
    match a {
        Ok(a) => {
            *counts = [finding, a.count, a.stamp];
            0
        }
        Err(refusal) => {
            *counts = [finding, 0, stamp];
            refusal.number()
        }
    }
}
