// Reads a list of moves from the bytes of its file: a head with the start point, then 25 bytes a move. Nothing is copied out: a move is read where it stands.
#![tactic(auto)]

ghost use Rattle.std.specs.Prelude.{◌≡◌, true, ℕ, ◌+◌, ◌*◌, ◌/◌, ◌%◌, ◌≤◌, ◌<◌, length};
ghost use Rattle.fields.specs.Little.{value};
ghost use Rattle.fields.specs.Rows.{finite, first_bad};
ghost use Rattle.refusals.specs.Numbers.{code_of, told_in};
ghost use Rattle.paths.specs.Layout.{mark, count as countField, kind_byte, number, numbers, shape as shape_of};
ghost use Rattle.paths.specs.Reader.{number_of, kind_of, point_of, move_of, unknown_among, SoundExactly, NeverTakenForAPart};
ghost use Rattle.paths.specs.Reader.{refusal_of_kinds, refusal_of_numbers, refusal_of_length, refusal_of_count, refusal_of, told_of_count, told_with};

use fields::{Length, Shape};
use refusals::Refusal;

#[derive(Clone, Copy)]
pub enum Kind {
    Rapid,
    Cut,
}

#[derive(Clone, Copy)]
pub struct Point {
    pub x: f64,
    pub y: f64,
    pub z: f64,
}

// A straight move.
#[derive(Clone, Copy)]
pub struct Move {
    pub kind: Kind,
    pub start: Point,
    pub end: Point,
}

// The bytes of the head, of a move and of a number, and the place of the start point.
const HEAD: usize = 34;

const MOVE: usize = 25;

const WIDE: usize = 8;

const START: usize = 10;

// The letters F, T and P, the first worth least.
const MARK: u32 = 5264454;

const MOST: u32 = 65536;

// Why these bytes are no list of moves, if they are none; a list that broke off is told with how many moves stand whole before the cut.
pub fn refusal(bytes: &[u8]) -> Result<(), Refusal>
    ensures value { code_of result ≡ refusal_of bytes.now }
    ensures whole { told_in result ≡ told_with (code_of result) bytes.now }
    ensures sound_exactly { SoundExactly bytes.now (code_of result) }
    ensures never_taken_for_apart { code_of result ≡ 0 → NeverTakenForAPart bytes.now }
{
    refusal_of_head(bytes)
}

// 14 to 17 by the first six bytes, else what the count decides.
#[tactic(auto, using(rules::proofs::Ladder::ladder, fields::proofs::Bytes::value_byte), unfolding(refusals::specs::Numbers::code_of, refusals::specs::Numbers::number_of, refusals::specs::Numbers::told_in, refusals::specs::Numbers::told_of, crate::specs::Reader::refusal_of, crate::specs::Reader::told_with, crate::specs::Reader::told_of_count))]
fn refusal_of_head(bytes: &[u8]) -> Result<(), Refusal>
    ensures value { code_of result ≡ refusal_of bytes.now }
    ensures whole { told_in result ≡ told_with (code_of result) bytes.now }
{
    if bytes.len() < HEAD {
        return Err(Refusal::Head);
    }
    if mark_of(bytes) != MARK {
        return Err(Refusal::Mark);
    }
    if fields::u16_at(bytes, 3) != 1 {
        return Err(Refusal::Version);
    }
    if bytes[5] != 0 {
        return Err(Refusal::SixthByte);
    }
    refusal_of_count(bytes, count(bytes))
}

// How many moves a list has.
pub fn count(bytes: &[u8]) -> u32
    requires { 34 ≤ length bytes.now }
    ensures { result ≡ value countField bytes.now }
{
    fields::u32_at(bytes, 6)
}

// Move t: from point t, where the one before it ended, to point t + 1.
#[tactic(auto, unfolding(crate::specs::Reader::move_of))]
pub fn move_at(bytes: &[u8], t: usize) -> Move
    requires t_in_bounds { 34 + 25 * (t + 1) ≤ length bytes.now }
    requires by_index { (k : ℕ) → k < 3 * t + 6 → finite (number_of bytes.now k) ≡ true }
    ensures { result ≡ move_of bytes.now t }
{
    Move {
        kind: kind_at(bytes, t),
        start: point_at(bytes, t),
        end: point_at(bytes, t + 1),
    }
}

// Point p: 0 is the start, t + 1 the end of move t.
#[tactic(auto, unfolding(crate::specs::Reader::point_of))]
pub fn point_at(bytes: &[u8], p: usize) -> Point
    requires p_in_bounds { 34 + 25 * p ≤ length bytes.now }
    requires by_index { (k : ℕ) → k < 3 * p + 3 → finite (number_of bytes.now k) ≡ true }
    ensures { result ≡ point_of bytes.now p }
{
    Point {
        x: number_at(bytes, 3 * p),
        y: number_at(bytes, 3 * p + 1),
        z: number_at(bytes, 3 * p + 2),
    }
}

#[tactic(auto, using(rules::proofs::Ladder::ladder, fields::proofs::Bytes::value_byte), unfolding(crate::specs::Reader::kind_of))]
fn kind_at(bytes: &[u8], t: usize) -> Kind
    requires { 34 + 25 * t < length bytes.now }
    ensures { result ≡ kind_of (value (kind_byte t) bytes.now) }
{
    if bytes[HEAD + MOVE * t] == 0 {
        return Kind::Rapid;
    }
    Kind::Cut
}

// 18, else what the length decides.
#[tactic(auto, using(rules::proofs::Ladder::ladder), unfolding(refusals::specs::Numbers::code_of, refusals::specs::Numbers::number_of, refusals::specs::Numbers::told_in, refusals::specs::Numbers::told_of, crate::specs::Reader::refusal_of_count, crate::specs::Reader::told_of_count))]
fn refusal_of_count(bytes: &[u8], n: u32) -> Result<(), Refusal>
    ensures value { code_of result ≡ refusal_of_count bytes.now n }
    ensures whole { told_in result ≡ told_of_count n (code_of result) bytes.now }
{
    if n > MOST {
        return Err(Refusal::Count);
    }
    refusal_of_length(bytes, n)
}

// 19 and 21, else what the numbers decide.
#[tactic(auto, using(fields::proofs::Lengths::short_tells, fields::proofs::Lengths::exact_length), unfolding(refusals::specs::Numbers::code_of, refusals::specs::Numbers::number_of, refusals::specs::Numbers::told_in, refusals::specs::Numbers::told_of, crate::specs::Reader::refusal_of_length, crate::specs::Reader::told_of_count, fields::specs::Length::refuse_length))]
fn refusal_of_length(bytes: &[u8], n: u32) -> Result<(), Refusal>
    ensures value { code_of result ≡ refusal_of_length bytes.now n }
    ensures whole { told_in result ≡ told_of_count n (code_of result) bytes.now }
{
    match fields::length_rule(shape(n), bytes.len()) {
        Length::Short(whole) => Err(Refusal::Cut(whole)),
        Length::Surplus => Err(Refusal::Surplus),
        Length::Exact => refusal_of_numbers(bytes, n as usize),
    }
}

// A list of n moves, as the length rule sees it.
fn shape(n: u32) -> Shape
    ensures { result ≡ shape_of n }
{
    Shape {
        head: 34,
        n,
        size: 25,
        m: 0,
        other: 0,
    }
}

// 20, else what the kind bytes decide.
#[tactic(auto, unfolding(refusals::specs::Numbers::code_of, refusals::specs::Numbers::number_of, refusals::specs::Numbers::told_in, refusals::specs::Numbers::told_of, crate::specs::Reader::refusal_of_numbers, crate::specs::Reader::told_of_count, fields::specs::Rows::somewhere, rules::specs::Ladder::refuse))]
fn refusal_of_numbers(bytes: &[u8], n: usize) -> Result<(), Refusal>
    requires { 34 + 25 * n ≤ length bytes.now }
    ensures value { code_of result ≡ refusal_of_numbers bytes.now n }
    ensures whole { told_in result ≡ told_of_count n (code_of result) bytes.now }
{
    match first_bad(bytes, n) {
        None => refusal_of_kinds(bytes, n),
        Some(_) => Err(Refusal::NotFinite),
    }
}

// 28, or none for a list that is accepted.
#[tactic(auto, using(rules::proofs::Ladder::ladder), unfolding(refusals::specs::Numbers::code_of, refusals::specs::Numbers::number_of, refusals::specs::Numbers::told_in, refusals::specs::Numbers::told_of, crate::specs::Reader::refusal_of_kinds, crate::specs::Reader::told_of_count))]
fn refusal_of_kinds(bytes: &[u8], n: usize) -> Result<(), Refusal>
    requires { 34 + 25 * n ≤ length bytes.now }
    ensures value { code_of result ≡ refusal_of_kinds bytes.now n }
    ensures whole { told_in result ≡ told_of_count n (code_of result) bytes.now }
{
    if unknown_among(bytes, n) {
        return Err(Refusal::Kind);
    }
    Ok(())
}

// Whether a kind byte of the first n moves is neither 0 nor 1.
fn unknown_among(bytes: &[u8], n: usize) -> bool
    requires { 34 + 25 * n ≤ length bytes.now }
    ensures { result ≡ unknown_among bytes.now 0 n }
{
    // by index: move t stands at its place in the bytes
    for t in 0..n {
        if bytes[HEAD + MOVE * t] > 1 {
            return true;
        }
    }
    false
}

// The first number of a file of n moves that is not finite.
fn first_bad(bytes: &[u8], n: usize) -> Option<usize>
    requires { 34 + 25 * n ≤ length bytes.now }
    ensures { result ≡ first_bad (number_of bytes.now) 0 (numbers n) }
{
    let count = 3 * n + 3;
    // by index: number k stands at its place in the bytes
    for k in 0..count {
        if !fields::is_finite(bits_of(bytes, k)) {
            return Some(k);
        }
    }
    None
}

// Number k, which is finite.
#[tactic(auto, using(fields::proofs::Finite::finite_bits), unfolding(crate::specs::Reader::number_of))]
fn number_at(bytes: &[u8], k: usize) -> f64
    requires k_in_bounds { 34 + 25 * (k / 3) ≤ length bytes.now }
    requires k_value { finite (number_of bytes.now k) ≡ true }
    ensures { result ≡ number_of bytes.now k }
{
    f64::from_bits(bits_of(bytes, k))
}

// The bits of number k.
fn bits_of(bytes: &[u8], k: usize) -> u64
    requires { 34 + 25 * (k / 3) ≤ length bytes.now }
    ensures { result ≡ value (number k) bytes.now }
{
    fields::u64_at(bytes, START + MOVE * (k / 3) + WIDE * (k % 3))
}

fn mark_of(bytes: &[u8]) -> u32
    requires { 3 ≤ length bytes.now }
    ensures { result ≡ value mark bytes.now }
{
    fields::u16_at(bytes, 0) as u32 + bytes[2] as u32 * 0x1_0000
}
