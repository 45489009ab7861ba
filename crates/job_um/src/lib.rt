// Reads a job of version 2: a mesh, a floor, a radius and questions in whole micrometres, as one file of bytes, little endian.
//
// Every reason to refuse it is looked for before the first number is written, so a refused job leaves both lent tables as they were.
#![tactic(auto)]

ghost use Rattle.std.specs.Prelude.{◌≡◌, Ok, ◌++◌, ◌+◌, ◌*◌, ◌/◌, ◌≤◌, length, drop};
ghost use Rattle.fields.specs.Rows.{row};
ghost use Rattle.job.specs.Layout.{bytes_of, narrow};
ghost use Rattle.job_um.specs.Reader.{number_of, told, ended, accepted_of, read_of, SoundExactly, AcceptedPromise};

use refusals::Refusal;

// What a job says beside the numbers in its tables.
#[derive(Clone, Copy)]
pub struct Job {
    pub n: u32,
    pub m: u32,
    pub floor: i32,
    pub radius: i32,
}

// The place of the first number and the bytes of a number.
const NUMBERS: usize = 14;

const NARROW: usize = 4;

// Reads a job into the lent tables: nine numbers a triangle, five a question; entries beyond those read stay unchanged.
pub fn read_job_um(bytes: &[u8], mesh: &mut [i32], questions: &mut [i32]) -> Result<Job, Refusal>
    ensures questions_after { ended (told result) mesh.new questions.new ≡ read_of bytes.now mesh.old questions.old }
    ensures sound_exactly { SoundExactly bytes.now (length mesh.old / 9) (length questions.old / 5) (told result).refusal }
    ensures accepted_promise { AcceptedPromise bytes.now mesh.old questions.old (told result).refusal }
{
    job::refusal_of_head(bytes, 4, 2, mesh.len() / 9, questions.len() / 5)?;
    Ok(decoded(
        bytes,
        fields::u32_at(bytes, 6),
        fields::u32_at(bytes, 10),
        mesh,
        questions,
    ))
}

// Puts an accepted job's numbers into the tables.
#[tactic(auto, using(micro::proofs::Signed::again), unfolding(crate::specs::Reader::accepted_of))]
fn decoded(bytes: &[u8], n: u32, m: u32, mesh: &mut [i32], questions: &mut [i32]) -> Job
    requires { (bytes_of narrow n m ≤ length bytes.now) × (9 * n ≤ length mesh.old) × (5 * m ≤ length questions.old) }
    ensures { ended (told (Ok result)) mesh.new questions.new ≡ accepted_of bytes.now n m mesh.old questions.old }
{
    let coordinates = 9 * n as usize;
    fill(bytes, 2, coordinates, mesh);
    fill(bytes, 2 + coordinates, 5 * m as usize, questions);
    let floor = number_at(bytes, 0);
    let radius = number_at(bytes, 1);
    Job {
        n,
        m,
        floor,
        radius,
    }
}

// Puts count numbers, from number k on, at the start of out; the rest of out stays.
fn fill(bytes: &[u8], k: usize, count: usize, out: &mut [i32])
    requires { (14 + 4 * (k + count) ≤ length bytes.now) × (count ≤ length out.old) }
    ensures { out.new ≡ row (number_of bytes.now) k count ++ drop count out.old }
{
    // by index: number k + i of the file goes to place i of the table
    for i in 0..count {
        let z = number_at(bytes, k + i);
        out[i] = z;
    }
}

// Number k.
fn number_at(bytes: &[u8], k: usize) -> i32
    requires { 14 + 4 * k + 4 ≤ length bytes.now }
    ensures { result ≡ number_of bytes.now k }
{
    micro::whole(fields::u32_at(bytes, NUMBERS + NARROW * k))
}
