// What every file has: numbers at a place, little endian, a test of their bits, counts with a limit, and a length that its counts ask for.
#![tactic(auto)]

ghost use Rattle.std.specs.Prelude.{◌≡◌, ◌+◌, ◌≤◌, length};
ghost use Rattle.std.specs.Float.{binary64};
ghost use Rattle.std.specs.Float.Ieee.{of_bits};
ghost use Rattle.fields.specs.Little.{field, value};
ghost use Rattle.fields.specs.Rows.{finite, all_finite};
ghost use Rattle.fields.specs.Room.{too_many};
ghost use Rattle.fields.specs.Length.{bytes_of, whole_in, length_rule, Whole};

// A file of a head, n entries of size bytes each, then m of other bytes each.
#[derive(Clone, Copy)]
pub struct Shape {
    pub head: u16,
    pub n: u32,
    pub size: u16,
    pub m: u32,
    pub other: u16,
}

// A file's length beside what its counts ask for; a short one tells how many of the first n entries stand whole before the cut.
#[derive(Clone, Copy)]
pub enum Length {
    Short(u32),
    Exact,
    Surplus,
}

const MOST: u32 = 65536;

const MINUS_ONE: f64 = -1.0;

// Whether a file of this length is short, exact or has a surplus.
pub fn length_rule(s: Shape, length: usize) -> Length
    ensures { result ≡ length_rule s length }
{
    let wanted = bytes_of(s);
    if length < wanted {
        return Length::Short(whole_in(s, length));
    }
    if wanted < length {
        return Length::Surplus;
    }
    Length::Exact
}

// How many of the first n entries stand whole in so many bytes.
pub fn whole_in(s: Shape, length: usize) -> u32
    ensures value { result ≡ whole_in s length }
    ensures whole { s.head ≤ length → 1 ≤ s.size → Whole s length result }
{
    let head = s.head as usize;
    let n = s.n;
    let size = s.size as usize;
    if length <= head {
        return 0;
    }
    if size == 0 {
        return 0;
    }
    let c = (length - head) / size;
    if c < n as usize {
        return c as u32;
    }
    n
}

// How many bytes a file of this shape has.
fn bytes_of(s: Shape) -> usize
    ensures { result ≡ bytes_of s }
{
    s.head as usize + s.n as usize * s.size as usize + s.m as usize * s.other as usize
}

// A count over 65,536 or over the lent room.
#[tactic(auto, unfolding(crate::specs::Room::too_many))]
pub fn too_many(count: u32, room: usize) -> bool
    ensures { result ≡ too_many count room }
{
    count > MOST || count as usize > room
}

// Whether the exponent's field is not all ones.
#[tactic(auto, using(crate::proofs::Finite::bits_finite))]
pub fn is_finite(bits: u64) -> bool
    ensures { result ≡ finite (of_bits binary64 bits) }
{
    bits / 0x10_0000_0000_0000 % 2048 != 2047
}

// Whether every number of a table is finite.
pub fn all_finite(xs: &[f64]) -> bool
    ensures { result ≡ all_finite xs.now }
{
    xs.iter().all(|&x| is_number(x))
}

// Whether x lies between the infinities.
#[tactic(auto, using(crate::proofs::Tables::between))]
pub fn is_number(x: f64) -> bool
    ensures { result ≡ finite x }
{
    MINUS_ONE / 0.0 < x && x < 1.0 / 0.0
}

pub fn u16_at(bytes: &[u8], at: usize) -> u16
    requires { at + 2 ≤ length bytes.now }
    ensures { result ≡ value (field at 2) bytes.now }
{
    bytes[at] as u16 + bytes[at + 1] as u16 * 0x100
}

pub fn u32_at(bytes: &[u8], at: usize) -> u32
    requires { at + 4 ≤ length bytes.now }
    ensures { result ≡ value (field at 4) bytes.now }
{
    u16_at(bytes, at) as u32 + u16_at(bytes, at + 2) as u32 * 0x1_0000
}

pub fn u64_at(bytes: &[u8], at: usize) -> u64
    requires { at + 8 ≤ length bytes.now }
    ensures { result ≡ value (field at 8) bytes.now }
{
    u32_at(bytes, at) as u64 + u32_at(bytes, at + 4) as u64 * 0x1_0000_0000
}
