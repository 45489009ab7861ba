// What C and Rust call to look over another planner's moves: include/mandrikelo.h declares this function. It hands its arguments to the
// library and lays the verdict into a fixed array; the contract is the library's own, and asks nothing of the caller.
#![tactic(auto)]

ghost use Rattle.std.specs.Prelude.{◌≡◌};
ghost use Rattle.look_over.specs.Verdict.{look_over_of};
ghost use Rattle.handed.specs.Handed.{index_from};
ghost use Rattle.desk_paths.specs.Paths.{looked_left, looked_left_by, Told};

use look_over::Verdict;

// Whether a list of moves passes, or its first bad move with the reason.
#[unsafe(no_mangle)]
pub extern "C" fn mandrikelo_look_over(
    bytes: &[u8],
    mesh: &[f64],
    measures: &[f64; 6],
    sizes: &[u32; 3],
    starts: &[u32],
    members: &[u32],
    boxes: &[f64],
    marks: &mut [u32],
    sections: &[f64],
    tolerance: f64,
    finding: &mut [u32; 3],
) -> u32
    ensures finding_after { looked_left result marks.new finding.new
        ≡ looked_left_by (look_over_of bytes.now
        (index_from mesh.now measures.now sizes.now starts.now members.now boxes.now)
        marks.old sections.now tolerance) }
    ensures told { result ≡ 0 → Told bytes.now
        (index_from mesh.now measures.now sizes.now starts.now members.now boxes.now)
        sections.now tolerance finding.new }
{
    let a = look_over::look_over(
        bytes,
        mesh,
        handed::header_from(measures, sizes),
        starts,
        members,
        boxes,
        marks,
        sections,
        tolerance,
    );
    let v = a.unwrap_or(Verdict::Unsaid);
    let verdict = look_over::verdict_number(v);
    let bad = look_over::bad_number(v);
    let reason = look_over::reason_number(v);
    *finding = [verdict, bad, reason];
    refusals::code_of(&a)
}
