// Reads a job: a mesh, a floor, a radius and questions as one file of bytes, little endian.
//
// Every reason to refuse it is looked for before the first number is written, so a refused job leaves both lent tables as they were.
#![tactic(auto)]

ghost use Rattle.std.specs.Prelude.{◌≡◌, true, Ok, ◌++◌, ℕ, ◌+◌, ◌*◌, ◌/◌, ◌≤◌, ◌<◌, length, drop};
ghost use Rattle.fields.specs.Little.{value};
ghost use Rattle.fields.specs.Rows.{finite, row, first_bad};
ghost use Rattle.job.specs.Layout.{mark, triangles, questions, number, numbers, bytes_of, shape as shape_of, wide};
ghost use Rattle.job.specs.Head.{refusal_of_length, refusal_of_counts, refusal_of_head, told_of_counts, told_in as whole_told_in};
ghost use Rattle.refusals.specs.Numbers.{code_of, told_in};
ghost use Rattle.job.specs.Reader.{number_of, refusal_of_numbers, refusal_of, told, ended, told_with, accepted_of, read_of, SoundExactly, NeverTakenForAPart};

use fields::{Length, Shape};
use refusals::Refusal;

// What a job says beside the numbers in its tables.
#[derive(Clone, Copy)]
pub struct Job {
    pub n: u32,
    pub m: u32,
    pub floor: f64,
    pub radius: f64,
}

// The place of the first number and the bytes of a number.
const NUMBERS: usize = 14;

const WIDE: usize = 8;

// The letters F, T and M, the first worth least.
const MARK: u32 = 5067846;

// Reads a job into the lent tables: nine numbers a triangle, five a question; entries beyond those read stay unchanged.
pub fn read_job(bytes: &[u8], mesh: &mut [f64], questions: &mut [f64]) -> Result<Job, Refusal>
    ensures questions_after { ended (told result) mesh.new questions.new ≡ read_of bytes.now mesh.old questions.old }
    ensures sound_exactly { SoundExactly bytes.now (length mesh.old / 9) (length questions.old / 5) (told result).refusal }
    ensures never_taken_for_apart { (told result).refusal ≡ 0 → NeverTakenForAPart bytes.now mesh.old questions.old }
{
    refusal(bytes, mesh.len() / 9, questions.len() / 5)?;
    Ok(decoded(
        bytes,
        fields::u32_at(bytes, 6),
        fields::u32_at(bytes, 10),
        mesh,
        questions,
    ))
}

// 14 to 21 but 20 as the head and the length decide, then 20, or none for a job that is accepted.
fn refusal(bytes: &[u8], nroom: usize, mroom: usize) -> Result<(), Refusal>
    ensures number { code_of result ≡ refusal_of bytes.now nroom mroom }
    ensures whole { told_in result ≡ told_with (code_of result) bytes.now }
{
    refusal_of_head(bytes, 8, 1, nroom, mroom)?;
    let n = fields::u32_at(bytes, 6);
    let m = fields::u32_at(bytes, 10);
    refusal_of_numbers(bytes, 2 + 9 * n as usize + 5 * m as usize)
}

// A job of n triangles and m questions whose numbers have w bytes, as the length rule sees it.
fn shape(w: u16, n: u32, m: u32) -> Shape
    requires { w ≤ 8 }
    ensures { result ≡ shape_of w n m }
{
    Shape {
        head: 14 + w * 2,
        n,
        size: 9 * w,
        m,
        other: 5 * w,
    }
}

// What the head and the length decide of a job of version v, whose numbers have w bytes: 14 to 17 by the first six bytes, else what the counts decide.
#[tactic(auto, using(rules::proofs::Ladder::ladder, fields::proofs::Bytes::value_byte), unfolding(refusals::specs::Numbers::code_of, refusals::specs::Numbers::number_of, refusals::specs::Numbers::told_in, refusals::specs::Numbers::told_of, crate::specs::Head::refusal_of_head, crate::specs::Head::told_in, crate::specs::Head::told_of_counts))]
pub fn refusal_of_head(
    bytes: &[u8],
    w: u16,
    v: u16,
    nroom: usize,
    mroom: usize,
) -> Result<(), Refusal>
    requires { w ≤ 8 }
    ensures number { code_of result ≡ refusal_of_head w v bytes.now nroom mroom 0 }
    ensures whole { told_in result ≡ whole_told_in w (code_of result) bytes.now }
{
    if bytes.len() < 14 + w as usize * 2 {
        return Err(Refusal::Head);
    }
    if mark_of(bytes) != MARK {
        return Err(Refusal::Mark);
    }
    if fields::u16_at(bytes, 3) != v {
        return Err(Refusal::Version);
    }
    if bytes[5] != 0 {
        return Err(Refusal::SixthByte);
    }
    refusal_of_counts(
        bytes,
        w,
        fields::u32_at(bytes, 6),
        fields::u32_at(bytes, 10),
        nroom,
        mroom,
    )
}

// 18, else what the length decides.
#[tactic(auto, using(rules::proofs::Ladder::ladder), unfolding(refusals::specs::Numbers::code_of, refusals::specs::Numbers::number_of, refusals::specs::Numbers::told_in, refusals::specs::Numbers::told_of, crate::specs::Head::refusal_of_counts, crate::specs::Head::told_of_counts))]
fn refusal_of_counts(
    bytes: &[u8],
    w: u16,
    n: u32,
    m: u32,
    nroom: usize,
    mroom: usize,
) -> Result<(), Refusal>
    requires { w ≤ 8 }
    ensures number { code_of result ≡ refusal_of_counts w bytes.now n m nroom mroom 0 }
    ensures whole { told_in result ≡ told_of_counts w n m (code_of result) bytes.now }
{
    if n == 0 || fields::too_many(n, nroom) || fields::too_many(m, mroom) {
        return Err(Refusal::Count);
    }
    refusal_of_length(bytes, w, n, m)
}

// 19, which tells how many triangles stand whole before the cut, and 21.
#[tactic(auto, using(fields::proofs::Lengths::short_tells), unfolding(refusals::specs::Numbers::code_of, refusals::specs::Numbers::number_of, refusals::specs::Numbers::told_in, refusals::specs::Numbers::told_of, crate::specs::Head::refusal_of_length, crate::specs::Head::told_of_counts, fields::specs::Length::refuse_length))]
fn refusal_of_length(bytes: &[u8], w: u16, n: u32, m: u32) -> Result<(), Refusal>
    requires { w ≤ 8 }
    ensures number { code_of result ≡ refusal_of_length w bytes.now n m 0 }
    ensures whole { told_in result ≡ told_of_counts w n m (code_of result) bytes.now }
{
    match fields::length_rule(shape(w, n, m), bytes.len()) {
        Length::Short(whole) => Err(Refusal::Cut(whole)),
        Length::Surplus => Err(Refusal::Surplus),
        Length::Exact => Ok(()),
    }
}

// 20, or none for a job that is accepted.
#[tactic(auto, unfolding(refusals::specs::Numbers::code_of, refusals::specs::Numbers::number_of, refusals::specs::Numbers::told_in, refusals::specs::Numbers::told_of, crate::specs::Reader::refusal_of_numbers, fields::specs::Rows::somewhere, rules::specs::Ladder::refuse))]
fn refusal_of_numbers(bytes: &[u8], count: usize) -> Result<(), Refusal>
    requires { 14 + 8 * count ≤ length bytes.now }
    ensures number { code_of result ≡ refusal_of_numbers bytes.now count }
    ensures nothing { told_in result ≡ 0 }
{
    match first_bad(bytes, count) {
        None => Ok(()),
        Some(_) => Err(Refusal::NotFinite),
    }
}

// The first of the job's numbers that is not finite.
fn first_bad(bytes: &[u8], count: usize) -> Option<usize>
    requires { 14 + 8 * count ≤ length bytes.now }
    ensures { result ≡ first_bad (number_of bytes.now) 0 count }
{
    // by index: number k stands at its place in the bytes
    for k in 0..count {
        if !fields::is_finite(bits_of(bytes, k)) {
            return Some(k);
        }
    }
    None
}

// Puts an accepted job's numbers into the tables.
#[tactic(auto, unfolding(crate::specs::Reader::accepted_of))]
fn decoded(bytes: &[u8], n: u32, m: u32, mesh: &mut [f64], questions: &mut [f64]) -> Job
    requires m_in_bounds { (bytes_of wide n m ≤ length bytes.now) × (9 * n ≤ length mesh.old) × (5 * m ≤ length questions.old) }
    requires by_index { (k : ℕ) → k < numbers n m → finite (number_of bytes.now k) ≡ true }
    ensures { ended (told (Ok result)) mesh.new questions.new ≡ accepted_of bytes.now n m mesh.old questions.old }
{
    let coordinates = 9 * n as usize;
    fill(bytes, 2, coordinates, mesh);
    fill(bytes, 2 + coordinates, 5 * m as usize, questions);
    Job {
        n,
        m,
        floor: number_at(bytes, 0),
        radius: number_at(bytes, 1),
    }
}

// Puts count numbers, from number k on, at the start of out; the rest of out stays.
fn fill(bytes: &[u8], k: usize, count: usize, out: &mut [f64])
    requires count_in_bounds { (14 + 8 * (k + count) ≤ length bytes.now) × (count ≤ length out.old) }
    requires by_index { (i : ℕ) → i < k + count → finite (number_of bytes.now i) ≡ true }
    ensures { out.new ≡ row (number_of bytes.now) k count ++ drop count out.old }
{
    // by index: number k + i of the file goes to place i of the table
    for i in 0..count {
        out[i] = number_at(bytes, k + i);
    }
}

// Number k, which is finite.
#[tactic(auto, using(fields::proofs::Finite::finite_bits), unfolding(crate::specs::Reader::number_of))]
fn number_at(bytes: &[u8], k: usize) -> f64
    requires k_in_bounds { 14 + 8 * k + 8 ≤ length bytes.now }
    requires k_value { finite (number_of bytes.now k) ≡ true }
    ensures { result ≡ number_of bytes.now k }
{
    f64::from_bits(bits_of(bytes, k))
}

// The bits of number k.
fn bits_of(bytes: &[u8], k: usize) -> u64
    requires { 14 + 8 * k + 8 ≤ length bytes.now }
    ensures { result ≡ value (number wide k) bytes.now }
{
    fields::u64_at(bytes, NUMBERS + WIDE * k)
}

fn mark_of(bytes: &[u8]) -> u32
    requires { 3 ≤ length bytes.now }
    ensures { result ≡ value mark bytes.now }
{
    fields::u16_at(bytes, 0) as u32 + bytes[2] as u32 * 0x1_0000
}
