// Writes a job: a mesh, a floor, a radius and questions as one file of bytes, little endian, as the reader takes it.
//
// Every reason to refuse is looked for before the first byte is written, so a refusal leaves the lent bytes as they were.
#![tactic(auto)]

ghost use Rattle.std.specs.Prelude.{◌≡◌, true, ◌∷◌, [], ◌++◌, ◌+◌, ◌*◌, ◌/◌, ◌≤◌, length};
ghost use Rattle.std.specs.Float.{binary64};
ghost use Rattle.std.specs.Float.Ieee.{to_bits};
ghost use Rattle.std.proofs.lemmas.List.Edits.{sets};
ghost use Rattle.job.specs.Layout.{mark, version, zero_byte, bytes_of, letters, wide};
ghost use Rattle.fields.specs.Rows.{finite, all_finite};
ghost use Rattle.writer.specs.Writer.{digits, laid, numbers_in, laid_all, head_of, job_of, job_in};
ghost use Rattle.refusals.specs.Numbers.{code_of};
ghost use Rattle.writer.specs.Writer.{refusal_of_numbers, refusal_of_counts, refusal_of, told, ended, write_of};
ghost use Rattle.writer.specs.Back.{ReadsBack, WritesAgain};

use refusals::Refusal;

// The place of the first number and the bytes of a number.
const NUMBERS: usize = 14;

const WIDE: usize = 8;

// Writes a job into the lent bytes, nine numbers a triangle, five a question, and answers how many bytes it has; bytes beyond the job stay unchanged.
pub fn write_job(
    mesh: &[f64],
    floor: f64,
    radius: f64,
    questions: &[f64],
    bytes: &mut [u8],
) -> Result<usize, Refusal>
    ensures bytes_after { ended (told result) bytes.new ≡ write_of mesh.now floor radius questions.now bytes.old }
    ensures reads_back { ReadsBack mesh.now floor radius questions.now (ended (told result) bytes.new) }
    ensures writes_again { WritesAgain mesh.now floor radius questions.now (length bytes.old) (ended (told result) bytes.new) }
{
    refusal(mesh, floor, radius, questions, bytes.len())?;
    put_job(mesh, floor, radius, questions, bytes);
    Ok(size(mesh.len() / 9, questions.len() / 5))
}

// 1, which the lengths decide, else what the counts decide.
#[tactic(auto, using(rules::proofs::Ladder::ladder), unfolding(refusals::specs::Numbers::code_of, refusals::specs::Numbers::number_of, crate::specs::Writer::refusal_of))]
fn refusal(
    mesh: &[f64],
    floor: f64,
    radius: f64,
    questions: &[f64],
    room: usize,
) -> Result<(), Refusal>
    ensures { code_of result ≡ refusal_of mesh.now floor radius questions.now room }
{
    if mesh.len() % 9 != 0 || mesh.len() / 9 > rules::MOST || questions.len() % 5 != 0 {
        return Err(Refusal::Length);
    }
    refusal_of_counts(mesh, floor, radius, questions, room)
}

// 18, else what the numbers decide.
#[tactic(auto, using(rules::proofs::Ladder::ladder), unfolding(refusals::specs::Numbers::code_of, refusals::specs::Numbers::number_of, crate::specs::Writer::refusal_of_counts))]
fn refusal_of_counts(
    mesh: &[f64],
    floor: f64,
    radius: f64,
    questions: &[f64],
    room: usize,
) -> Result<(), Refusal>
    requires { length mesh.now / 9 ≤ 65536 }
    ensures { code_of result ≡ refusal_of_counts mesh.now floor radius questions.now room }
{
    if mesh.len() == 0 || questions.len() / 5 > rules::MOST {
        return Err(Refusal::Count);
    }
    refusal_of_numbers(mesh, floor, radius, questions, room)
}

// 20 and 22, or none for a job that is accepted.
#[tactic(auto, using(rules::proofs::Ladder::ladder), unfolding(refusals::specs::Numbers::code_of, refusals::specs::Numbers::number_of, crate::specs::Writer::refusal_of_numbers))]
fn refusal_of_numbers(
    mesh: &[f64],
    floor: f64,
    radius: f64,
    questions: &[f64],
    room: usize,
) -> Result<(), Refusal>
    requires { (length mesh.now / 9 ≤ 65536) × (length questions.now / 5 ≤ 65536) }
    ensures { code_of result ≡ refusal_of_numbers mesh.now floor radius questions.now room }
{
    if !numbers_finite(mesh, floor, radius, questions) {
        return Err(Refusal::NotFinite);
    }
    if room < size(mesh.len() / 9, questions.len() / 5) {
        return Err(Refusal::Bytes);
    }
    Ok(())
}

// How many bytes a job of n triangles and m questions has.
fn size(n: usize, m: usize) -> usize
    requires { (n ≤ 65536) × (m ≤ 65536) }
    ensures { result ≡ bytes_of wide n m }
{
    NUMBERS + WIDE * (2 + 9 * n + 5 * m)
}

// Whether all numbers of the job are finite.
#[tactic(auto, using(crate::proofs::Rows::all_append), unfolding(fields::specs::Rows::all_finite))]
fn numbers_finite(mesh: &[f64], floor: f64, radius: f64, questions: &[f64]) -> bool
    ensures { result ≡ all_finite (numbers_in mesh.now floor radius questions.now) }
{
    fields::is_number(floor)
        && fields::is_number(radius)
        && fields::all_finite(mesh)
        && fields::all_finite(questions)
}

// Puts an accepted job's fields into the bytes.
fn put_job(mesh: &[f64], floor: f64, radius: f64, questions: &[f64], bytes: &mut [u8])
    requires mesh_len_bound { (length mesh.now / 9 ≤ 65536) × (length questions.now / 5 ≤ 65536) }
    requires questions_in_bounds { 14 + 8 * (2 + length mesh.now + length questions.now) ≤ length bytes.old }
    requires questions_value { all_finite (numbers_in mesh.now floor radius questions.now) ≡ true }
    ensures { bytes.new ≡ sets bytes.old 0 (job_in mesh.now floor radius questions.now) }
{
    put_front(
        (mesh.len() / 9) as u32,
        (questions.len() / 5) as u32,
        floor,
        radius,
        bytes,
    );
    put_numbers(mesh, 2, bytes);
    put_numbers(questions, 2 + mesh.len(), bytes);
}

// The fields before the first triangle.
fn put_front(n: u32, m: u32, floor: f64, radius: f64, bytes: &mut [u8])
    requires in_bounds { 30 ≤ length bytes.old }
    requires floor_value { (finite floor ≡ true) × (finite radius ≡ true) }
    ensures { bytes.new ≡ sets bytes.old 0 (job_of n m (floor ∷ radius ∷ [])) }
{
    put_head(n, m, bytes);
    put_number(floor, 0, bytes);
    put_number(radius, 1, bytes);
}

// The fields before the numbers.
#[tactic(auto, unfolding(crate::specs::Writer::head_of, crate::specs::Writer::digits))]
fn put_head(n: u32, m: u32, bytes: &mut [u8])
    requires { 14 ≤ length bytes.old }
    ensures { bytes.new ≡ sets bytes.old 0 (head_of n m) }
{
    put_mark(bytes);
    put_u32(n, 6, bytes);
    put_u32(m, 10, bytes);
}

// The letters F, T and M, version 1 and a zero byte.
#[tactic(auto, unfolding(crate::specs::Writer::digits))]
fn put_mark(bytes: &mut [u8])
    requires { 6 ≤ length bytes.old }
    ensures { bytes.new ≡ sets bytes.old 0 (laid mark letters ++ laid version 1 ++ laid zero_byte 0) }
{
    bytes[0] = b'F';
    bytes[1] = b'T';
    bytes[2] = b'M';
    bytes[3] = 1;
    bytes[4] = 0;
    bytes[5] = 0;
}

// Numbers, which are finite, from number k on.
fn put_numbers(xs: &[f64], k: usize, bytes: &mut [u8])
    requires xs_in_bounds { 14 + 8 * (k + length xs.now) ≤ length bytes.old }
    requires xs_value { all_finite xs.now ≡ true }
    ensures { bytes.new ≡ sets bytes.old (14 + 8 * k) (laid_all xs.now) }
{
    // by index: number i of the row goes to its place in the bytes
    for i in 0..xs.len() {
        put_number(xs[i], k + i, bytes);
    }
}

// Number k, which is finite.
#[tactic(auto, using(fields::proofs::Finite::finite_no_nan))]
fn put_number(x: f64, k: usize, bytes: &mut [u8])
    requires k_in_bounds { 14 + 8 * k + 8 ≤ length bytes.old }
    requires x_value { finite x ≡ true }
    ensures { bytes.new ≡ sets bytes.old (14 + 8 * k) (digits 8 (to_bits binary64 x)) }
{
    put_u64(f64::to_bits(x), NUMBERS + WIDE * k, bytes);
}

fn put_u16(v: u16, at: usize, bytes: &mut [u8])
    requires { at + 2 ≤ length bytes.old }
    ensures { bytes.new ≡ sets bytes.old at (digits 2 v) }
{
    bytes[at] = (v % 0x100) as u8;
    bytes[at + 1] = (v / 0x100 % 0x100) as u8;
}

fn put_u32(v: u32, at: usize, bytes: &mut [u8])
    requires { at + 4 ≤ length bytes.old }
    ensures { bytes.new ≡ sets bytes.old at (digits 4 v) }
{
    put_u16((v % 0x1_0000) as u16, at, bytes);
    put_u16((v / 0x1_0000) as u16, at + 2, bytes);
}

fn put_u64(v: u64, at: usize, bytes: &mut [u8])
    requires { at + 8 ≤ length bytes.old }
    ensures { bytes.new ≡ sets bytes.old at (digits 8 v) }
{
    put_u32((v % 0x1_0000_0000) as u32, at, bytes);
    put_u32((v / 0x1_0000_0000) as u32, at + 4, bytes);
}
