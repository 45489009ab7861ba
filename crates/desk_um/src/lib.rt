// What C and Rust call in whole micrometres: include/mandrikelo.h declares these functions. Each hands its arguments to the library and lays the
// answer into fixed arrays; the contract is the library's own, and asks nothing of the caller.
#![tactic(auto)]

ghost use Rattle.std.specs.Prelude.{◌≡◌, ◌/◌, length};
ghost use Rattle.micro.specs.Micro.{counted};
ghost use Rattle.job_um.specs.Reader.{read_of, SoundExactly, AcceptedPromise};
ghost use Rattle.um.specs.Build.{build_of};
ghost use Rattle.um.specs.Index.{BuildPromise};
ghost use Rattle.setup.specs.Answer.{setup_height_of};
ghost use Rattle.setup.specs.Demand.{SetupPromise};
ghost use Rattle.desk_um.specs.Doors.{job_left, job_left_by, built_left, built_left_by, header_from, index_from};
ghost use Rattle.desk_um.specs.Doors.{question_from, height_left, height_left_by, answer_from};

use setup::Question;
use um::Header;

// Reads a job of version 2 into the lent tables; measures get the floor and the radius, sizes the numbers of triangles and questions. After 19 the
// first of sizes holds how many triangles stand whole before the cut.
#[tactic(auto, using(micro::proofs::Signed::again), unfolding(crate::specs::Doors::job_left_by))]
#[unsafe(no_mangle)]
pub extern "C" fn mandrikelo_read_job_um(
    bytes: &[u8],
    mesh: &mut [i32],
    questions: &mut [i32],
    measures: &mut [i32; 2],
    sizes: &mut [u32; 2],
) -> u32
    ensures sizes_after { job_left result mesh.new questions.new measures.new sizes.new
        ≡ job_left_by (read_of bytes.now mesh.old questions.old) }
    ensures sound_exactly { SoundExactly bytes.now (length mesh.old / 9) (length questions.old / 5) result }
    ensures accepted_promise { AcceptedPromise bytes.now mesh.old questions.old result }
{
    match job_um::read_job_um(bytes, mesh, questions) {
        Ok(read) => {
            *measures = [read.floor, read.radius];
            *sizes = [read.n, read.m];
            0
        }
        Err(refusal) => {
            *measures = [0, 0];
            *sizes = [refusal.told(), 0];
            refusal.number()
        }
    }
}

// Builds the index of a mesh in starts and members; measures and sizes hold its header. After 4, bad holds the triangle and which of its nine numbers
// came first.
#[unsafe(no_mangle)]
pub extern "C" fn mandrikelo_build_um(
    mesh: &[i32],
    floor: i32,
    r: i32,
    starts: &mut [u32],
    members: &mut [u32],
    measures: &mut [i32; 4],
    sizes: &mut [u32; 4],
    bad: &mut [u32; 2],
) -> u32
    ensures bad_after { built_left result starts.new members.new measures.new sizes.new bad.new
        ≡ built_left_by (build_of mesh.now (counted floor) (counted r) starts.old members.old) }
    ensures build_promise { BuildPromise
        (index_from mesh.now measures.new sizes.new starts.new members.new) result }
{
    match um::build_um(mesh, micro::count(floor), micro::count(r), starts, members) {
        Ok(h) => {
            let x = micro::number(h.x);
            let y = micro::number(h.y);
            let f = micro::number(h.floor);
            let q = micro::number(h.r);
            *measures = [x, y, f, q];
            *sizes = [h.n as u32, h.columns as u32, h.rows as u32, h.cell as u32];
            *bad = [0, 0];
            0
        }
        Err(refusal) => {
            let place = refusal.told();
            *measures = [0, 0, 0, 0];
            *sizes = [0, 0, 0, 0];
            *bad = [place / 9, place % 9];
            refusal.number()
        }
    }
}

// The set-up height of a question from (px, py) to (qx, qy) with the radius r.
#[unsafe(no_mangle)]
pub extern "C" fn mandrikelo_setup_height(
    mesh: &[i32],
    measures: &[i32; 4],
    sizes: &[u32; 4],
    starts: &[u32],
    members: &[u32],
    marks: &mut [u32],
    stamp: u32,
    px: i32,
    py: i32,
    qx: i32,
    qy: i32,
    r: i32,
    height: &mut [i32; 1],
    counts: &mut [u32; 3],
) -> u32
    ensures counts_after { height_left result marks.new height.new counts.new
        ≡ height_left_by (setup_height_of
        (index_from mesh.now measures.now sizes.now starts.now members.now)
        marks.old stamp (question_from px py qx qy r)) }
    ensures setup_promise { SetupPromise
        (index_from mesh.now measures.now sizes.now starts.now members.now)
        marks.old stamp (question_from px py qx qy r)
        (answer_from result height.new counts.new) }
{
    let answer = setup::setup_height(
        mesh,
        header_from(measures, sizes),
        starts,
        members,
        marks,
        stamp,
        question_from(px, py, qx, qy, r),
    );
    match answer {
        Ok(a) => {
            let z = micro::number(a.height);
            *height = [z];
            *counts = [a.count, a.stamp, a.met];
            0
        }
        Err(refusal) => {
            *height = [0];
            *counts = [0, stamp, 0];
            refusal.number()
        }
    }
}

// A size from C, as the header has it.
fn wide(x: u32) -> usize
    ensures { result ≡ x }
{
    x as usize
}

// A cell from C, as the header has it.
fn long(x: u32) -> u64
    ensures { result ≡ x }
{
    x as u64
}

// The header that C hands over in two arrays.
fn header_from(measures: &[i32; 4], sizes: &[u32; 4]) -> Header
    ensures { result ≡ header_from measures.now sizes.now }
{
    let x = measures[0];
    let y = measures[1];
    let floor = measures[2];
    let r = measures[3];
    Header {
        n: wide(sizes[0]),
        x: micro::count(x),
        y: micro::count(y),
        floor: micro::count(floor),
        r: micro::count(r),
        columns: wide(sizes[1]),
        rows: wide(sizes[2]),
        cell: long(sizes[3]),
    }
}

// The question that C hands over.
fn question_from(px: i32, py: i32, qx: i32, qy: i32, r: i32) -> Question
    ensures { result ≡ question_from px py qx qy r }
{
    Question {
        px: micro::count(px),
        py: micro::count(py),
        qx: micro::count(qx),
        qy: micro::count(qy),
        r: micro::count(r),
    }
}
