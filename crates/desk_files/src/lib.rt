// What C and Rust call of the files: include/mandrikelo.h declares these functions. Each hands its arguments to the library and lays the
// answer into fixed arrays; the contract is the library's own, and asks nothing of the caller.
#![tactic(auto)]

ghost use Rattle.std.specs.Prelude.{◌≡◌, ◌/◌, length};
ghost use Rattle.job.specs.Reader.{read_of, SoundExactly, NeverTakenForAPart};
ghost use Rattle.desk_files.specs.Jobs.{job_left, job_left_by};

mod stl_files;
mod write;

// Reads a job into the lent tables; measures get the floor and the radius, sizes the numbers of triangles and questions. After 19 the first of sizes
// holds how many triangles stand whole before the cut.
#[tactic(auto, unfolding(crate::specs::Jobs::job_left_by))]
#[unsafe(no_mangle)]
pub extern "C" fn mandrikelo_read_job(
    bytes: &[u8],
    mesh: &mut [f64],
    questions: &mut [f64],
    measures: &mut [f64; 2],
    sizes: &mut [u32; 2],
) -> u32
    ensures sizes_after { job_left result mesh.new questions.new measures.new sizes.new
        ≡ job_left_by (read_of bytes.now mesh.old questions.old) }
    ensures sound_exactly { SoundExactly bytes.now (length mesh.old / 9) (length questions.old / 5) result }
    ensures never_taken_for_apart { result ≡ 0 → NeverTakenForAPart bytes.now mesh.old questions.old }
{
    match job::read_job(bytes, mesh, questions) {
        Ok(read) => {
            *measures = [read.floor, read.radius];
            *sizes = [read.n, read.m];
            0
        }
        Err(refusal) => {
            *measures = [0.0, 0.0];
            *sizes = [refusal.told(), 0];
            refusal.number()
        }
    }
}
