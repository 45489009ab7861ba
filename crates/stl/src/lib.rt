// Reads a binary STL file into a mesh: 80 bytes of heading, a count, and 50 bytes a triangle, of which the 36 of its vertices count.
//
// Every reason to refuse it is looked for before the first number is written, so a refused file leaves the lent mesh as it was.
#![tactic(auto)]

ghost use Rattle.std.specs.Prelude.{◌≡◌, ◌++◌, true, ℕ, ◌+◌, ◌*◌, ◌/◌, ◌≤◌, ◌<◌, length, drop};
ghost use Rattle.std.proofs.lemmas.List.Edits.{sets};
ghost use Rattle.fields.specs.Rows.{finite, row};
ghost use Rattle.single.specs.Single.{value_of};
ghost use Rattle.refusals.specs.Numbers.{code_of, told_in};
ghost use Rattle.stl.specs.Layout.{shape as shape_of};
ghost use Rattle.stl.specs.Reader.{number_of, bad_among, refusal_of_numbers, refusal_of_length, refusal_of_count, refusal_of, told, ended};
ghost use Rattle.stl.specs.Reader.{told_of_count, told_with, read_of, SoundExactly, NeverTakenForAPart};
ghost use Rattle.stl.specs.Alike.{OnlyVertices};

use fields::{Length, Shape, length_rule, too_many, u32_at};
use refusals::Refusal;
use single::{is_finite, widened};

// The place of the count, the bytes before the first triangle, of a triangle, of its normal, and of a number.
const COUNT: usize = 80;

const HEAD: usize = 84;

const TRIANGLE: usize = 50;

const NORMAL: usize = 12;

const NUMBER: usize = 4;

// Reads an STL file into the lent mesh, nine numbers a triangle, and answers how many triangles it has; entries beyond those read stay unchanged.
pub fn read_stl(bytes: &[u8], mesh: &mut [f64]) -> Result<u32, Refusal>
    ensures mesh_after { ended (told result) mesh.new ≡ read_of bytes.now mesh.old }
    ensures sound_exactly { SoundExactly bytes.now (length mesh.old / 9) (told result).refusal }
    ensures never_taken_for_apart { (told result).refusal ≡ 0 → NeverTakenForAPart bytes.now mesh.old }
    ensures only_vertices { OnlyVertices bytes.now mesh.old (ended (told result) mesh.new) }
{
    refusal(bytes, mesh.len() / 9)?;
    let n = u32_at(bytes, COUNT);
    fill(bytes, n as usize, mesh);
    Ok(n)
}

// A file of n triangles, as the length rule sees it.
fn shape(n: u32) -> Shape
    ensures { result ≡ shape_of n }
{
    Shape {
        head: 84,
        n,
        size: 50,
        m: 0,
        other: 0,
    }
}

// 14, else what the count decides; 19 tells how many triangles stand whole before the cut.
#[tactic(auto, using(rules::proofs::Ladder::ladder), unfolding(refusals::specs::Numbers::code_of, refusals::specs::Numbers::number_of, refusals::specs::Numbers::told_in, refusals::specs::Numbers::told_of, crate::specs::Reader::refusal_of, crate::specs::Reader::told_with, crate::specs::Reader::told_of_count))]
fn refusal(bytes: &[u8], room: usize) -> Result<(), Refusal>
    ensures number { code_of result ≡ refusal_of bytes.now room }
    ensures whole { told_in result ≡ told_with (code_of result) bytes.now }
{
    if bytes.len() < HEAD {
        return Err(Refusal::Head);
    }
    refusal_of_count(bytes, u32_at(bytes, COUNT), room)
}

// 18, else what the length decides.
#[tactic(auto, using(rules::proofs::Ladder::ladder), unfolding(refusals::specs::Numbers::code_of, refusals::specs::Numbers::number_of, refusals::specs::Numbers::told_in, refusals::specs::Numbers::told_of, crate::specs::Reader::refusal_of_count, crate::specs::Reader::told_of_count))]
fn refusal_of_count(bytes: &[u8], n: u32, room: usize) -> Result<(), Refusal>
    ensures number { code_of result ≡ refusal_of_count bytes.now n room }
    ensures whole { told_in result ≡ told_of_count n (code_of result) bytes.now }
{
    if n == 0 || too_many(n, room) {
        return Err(Refusal::Count);
    }
    refusal_of_length(bytes, n)
}

// 19 and 21, else what the numbers decide.
#[tactic(auto, using(fields::proofs::Lengths::short_tells, fields::proofs::Lengths::exact_length), unfolding(refusals::specs::Numbers::code_of, refusals::specs::Numbers::number_of, refusals::specs::Numbers::told_in, refusals::specs::Numbers::told_of, crate::specs::Reader::refusal_of_length, crate::specs::Reader::told_of_count, fields::specs::Length::refuse_length))]
fn refusal_of_length(bytes: &[u8], n: u32) -> Result<(), Refusal>
    ensures number { code_of result ≡ refusal_of_length bytes.now n }
    ensures whole { told_in result ≡ told_of_count n (code_of result) bytes.now }
{
    match length_rule(shape(n), bytes.len()) {
        Length::Short(whole) => Err(Refusal::Cut(whole)),
        Length::Surplus => Err(Refusal::Surplus),
        Length::Exact => refusal_of_numbers(bytes, n as usize),
    }
}

// 20, or none for a file that is accepted.
#[tactic(auto, using(rules::proofs::Ladder::ladder), unfolding(refusals::specs::Numbers::code_of, refusals::specs::Numbers::number_of, refusals::specs::Numbers::told_in, refusals::specs::Numbers::told_of, crate::specs::Reader::refusal_of_numbers, crate::specs::Reader::told_of_count))]
fn refusal_of_numbers(bytes: &[u8], n: usize) -> Result<(), Refusal>
    requires { 84 + 50 * n ≤ length bytes.now }
    ensures number { code_of result ≡ refusal_of_numbers bytes.now n }
    ensures whole { told_in result ≡ told_of_count n (code_of result) bytes.now }
{
    if bad_among(bytes, n) {
        return Err(Refusal::NotFinite);
    }
    Ok(())
}

// Whether a vertex number of the first n triangles is not finite.
fn bad_among(bytes: &[u8], n: usize) -> bool
    requires { 84 + 50 * n ≤ length bytes.now }
    ensures { result ≡ bad_among bytes.now 0 (9 * n) }
{
    // by index: triangle t stands at its place in the bytes
    for t in 0..n {
        if bad_in(bytes, t) {
            return true;
        }
    }
    false
}

// Whether a vertex number of triangle t is not finite.
fn bad_in(bytes: &[u8], t: usize) -> bool
    requires { 84 + 50 * (t + 1) ≤ length bytes.now }
    ensures { result ≡ bad_among bytes.now (9 * t) 9 }
{
    // by index: number j stands at its place in the triangle
    for j in 0..9usize {
        if !is_finite(bits_at(bytes, t, j)) {
            return true;
        }
    }
    false
}

// Puts the vertices of the first n triangles at the start of out; the rest of out stays.
fn fill(bytes: &[u8], n: usize, out: &mut [f64])
    requires n_in_bounds { (84 + 50 * n ≤ length bytes.now) × (9 * n ≤ length out.old) }
    requires by_index { (k : ℕ) → k < 9 * n → finite (number_of bytes.now k) ≡ true }
    ensures { out.new ≡ row (number_of bytes.now) 0 (9 * n) ++ drop (9 * n) out.old }
{
    // by index: triangle t goes to its place in the table
    for t in 0..n {
        put(bytes, t, out);
    }
}

// Puts the nine numbers of triangle t into their places in out.
fn put(bytes: &[u8], t: usize, out: &mut [f64])
    requires t_in_bounds { (84 + 50 * (t + 1) ≤ length bytes.now) × (9 * (t + 1) ≤ length out.old) }
    requires by_index { (j : ℕ) → j < 9 → finite (number_of bytes.now (9 * t + j)) ≡ true }
    ensures { out.new ≡ sets out.old (9 * t) (row (number_of bytes.now) (9 * t) 9) }
{
    // by index: number j goes to its place in the table
    for j in 0..9usize {
        out[9 * t + j] = widened(bits_at(bytes, t, j));
    }
}

// The bits of number j of triangle t.
fn bits_at(bytes: &[u8], t: usize, j: usize) -> u32
    requires { (84 + 50 * (t + 1) ≤ length bytes.now) × (j < 9) }
    ensures { value_of result ≡ number_of bytes.now (9 * t + j) }
{
    u32_at(bytes, HEAD + TRIANGLE * t + NORMAL + NUMBER * j)
}
