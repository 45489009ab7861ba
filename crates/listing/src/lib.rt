// The listing of a job: its text is a function of the job's bytes.
#![tactic(auto)]

ghost use Rattle.std.specs.Prelude.{◌≡◌, ◌+◌, ◌*◌, ◌≤◌, length, take, drop};
ghost use Rattle.grid.specs.Index.{index_of};
ghost use Rattle.ask.specs.Ask.{ended, answer_told};
ghost use Rattle.lines.specs.Inside.{Wrote};
ghost use Rattle.listing.specs.Listing.{asked_of, answers_of, listed_of, listing_of, Enough};

use ask::Answer;
use grid::Header;
use refusals::Refusal;

// Room for the longest listing of 256 questions.
pub const TEXT: usize = 20570;

// Room for the longest job that is accepted, and one byte more: of a longer input that is enough.
pub const INPUT: usize = 28703;

// Puts the listing of a job at the start of out, and answers how long it is; the bytes behind it stay.
pub fn listing(bytes: &[u8], out: &mut [u8; TEXT]) -> usize
    ensures { (take result out.new ≡ listing_of bytes.now) × (result ≤ length out.new) × Enough bytes.now
        × (drop result out.new ≡ drop result out.old) }
{
    let mut mesh = [0.0; 2304];
    let mut questions = [0.0; 1280];
    let mut boxes = [0.0; 1280];
    let a = match job::read_job(bytes, &mut mesh, &mut questions) {
        Ok(a) => a,
        Err(refusal) => return lines::refused_line(out, 0, refusal.number()),
    };
    let n = a.n as usize;
    let m = a.m as usize;
    listed(
        &mesh[..9 * n],
        &questions[..5 * m],
        &mut boxes[..5 * n],
        a.floor,
        a.radius,
        n,
        m,
        out,
    )
}

// The listing of a job that was read.
fn listed(
    mesh: &[f64],
    questions: &[f64],
    boxes: &mut [f64],
    floor: f64,
    radius: f64,
    n: usize,
    m: usize,
    out: &mut [u8],
) -> usize
    requires { (n ≤ 256) × (m ≤ 256) × (length questions.now ≡ 5 * m) × (20570 ≤ length out.old) }
    ensures { Wrote out.old out.new 0 result (listed_of mesh.now questions.now boxes.old floor radius n m) × (result ≤ 20570) }
{
    let mut starts = [0; 513];
    let mut members = [0; 16384];
    match grid::build(mesh, floor, radius, &mut starts, &mut members, boxes) {
        Err(refusal) => lines::refused_line(out, 0, refusal.number()),
        Ok(h) => {
            let mut marks = [0; 256];
            let at = lines::head_line(out, 0, n as u32, m as u32, h.columns, h.rows);
            answers(
                mesh,
                h,
                &starts,
                &members,
                boxes,
                questions,
                &mut marks[..n],
                m,
                out,
                at,
            )
        }
    }
}

// The lines of all m questions, in order.
fn answers(
    mesh: &[f64],
    h: Header,
    starts: &[u32],
    members: &[u32],
    boxes: &[f64],
    questions: &[f64],
    marks: &mut [u32],
    m: usize,
    out: &mut [u8],
    at: usize,
) -> usize
    requires { (length questions.now ≡ 5 * m) × (at + 80 * m ≤ length out.old) }
    ensures { Wrote out.old out.new at result
        (answers_of (index_of mesh.now h starts.now members.now boxes.now) questions.now marks.old 0 0 m)
        × (result ≤ at + 80 * m) }
{
    let mut stamp: u32 = 0;
    let mut end = at;
    for i in 0..m {
        match asked(mesh, h, starts, members, boxes, marks, stamp, questions, i) {
            Ok(a) => {
                stamp = a.stamp;
                end = lines::answer_line(out, end, i, 0, a.height, a.count);
            }
            Err(refusal) => {
                end = lines::answer_line(out, end, i, refusal.number(), 0.0, 0);
            }
        }
    }
    end
}

// What question i answers.
fn asked(
    mesh: &[f64],
    h: Header,
    starts: &[u32],
    members: &[u32],
    boxes: &[f64],
    marks: &mut [u32],
    stamp: u32,
    questions: &[f64],
    i: usize,
) -> Result<Answer, Refusal>
    requires { 5 * i + 5 ≤ length questions.now }
    ensures { ended (answer_told result stamp) marks.new ≡ asked_of (index_of mesh.now h starts.now members.now boxes.now)
        marks.old stamp questions.now i }
{
    let k = 5 * i;
    let px = questions[k];
    let py = questions[k + 1];
    let qx = questions[k + 2];
    let qy = questions[k + 3];
    let r = questions[k + 4];
    height::max_height(
        mesh, h, starts, members, boxes, marks, stamp, px, py, qx, qy, r,
    )
}
