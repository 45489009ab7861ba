// From the bytes of an STL file to a swept-disk height: read, build and ask in one call.
#![tactic(auto)]

ghost use Rattle.std.specs.Prelude.{◌≡◌};
ghost use Rattle.ask.specs.Ask.{answer_told};
ghost use Rattle.height.specs.Sweep.{sweep};
ghost use Rattle.part.specs.Part.{mesh_of, asked, mesh_height_of, left, part_height_of, MeetsDemand3};

use ask::Answer;
use refusals::Refusal;

// The swept-disk height over the part in an STL file: the file's mesh goes into mesh, its index with this floor and radius into starts, members and boxes;
// then the question is asked. A refusal is the reader's, the builder's or the question's, and what came before it stays.
pub fn part_height(
    bytes: &[u8],
    mesh: &mut [f64],
    floor: f64,
    radius: f64,
    starts: &mut [u32],
    members: &mut [u32],
    boxes: &mut [f64],
    marks: &mut [u32],
    stamp: u32,
    px: f64,
    py: f64,
    qx: f64,
    qy: f64,
    r: f64,
) -> Result<Answer, Refusal>
    ensures marks_after { left mesh.new (asked (answer_told result stamp) starts.new members.new boxes.new marks.new)
        ≡ part_height_of bytes.now mesh.old floor radius starts.old members.old boxes.old marks.old stamp
        (sweep px py qx qy r) }
    ensures meets_demand3 { (answer_told result stamp).refusal ≡ 0
        → MeetsDemand3 (mesh_of bytes.now) starts.new members.new boxes.new marks.old stamp
        (sweep px py qx qy r) (answer_told result stamp) }
{
    let n = stl::read_stl(bytes, mesh)?;
    let end = 9 * n as usize;
    mesh_height(
        &mesh[..end],
        floor,
        radius,
        starts,
        members,
        boxes,
        marks,
        stamp,
        px,
        py,
        qx,
        qy,
        r,
    )
}

// The swept-disk height over the index of a mesh, which is built first.
fn mesh_height(
    mesh: &[f64],
    floor: f64,
    radius: f64,
    starts: &mut [u32],
    members: &mut [u32],
    boxes: &mut [f64],
    marks: &mut [u32],
    stamp: u32,
    px: f64,
    py: f64,
    qx: f64,
    qy: f64,
    r: f64,
) -> Result<Answer, Refusal>
    ensures marks_after { asked (answer_told result stamp) starts.new members.new boxes.new marks.new
        ≡ mesh_height_of mesh.now floor radius starts.old members.old boxes.old marks.old stamp
        (sweep px py qx qy r) }
    ensures meets_demand3 { (answer_told result stamp).refusal ≡ 0
        → MeetsDemand3 mesh.now starts.new members.new boxes.new marks.old stamp
        (sweep px py qx qy r) (answer_told result stamp) }
{
    let h = grid::build(mesh, floor, radius, starts, members, boxes)?;
    height::max_height(
        mesh, h, starts, members, boxes, marks, stamp, px, py, qx, qy, r,
    )
}
