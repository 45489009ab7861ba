// The lines of the fixed lists that the replay programs read: a letter, then numbers of 16 hex digits each with a blank before them, every NaN written
// 7ff8000000000000.
#![tactic(auto)]

ghost use Rattle.std.specs.Prelude.{◌≡◌, ◌+◌, ◌*◌, ◌≤◌, length};
ghost use Rattle.vectors.specs.Lines.{digit_of, hex_of, float_of, bits_of, asked_of, triangle_of, unlike_of, heights_in, differs_from};

use plane::{Contact, Triangle};

const NAN: u64 = 0x7ff8_0000_0000_0000;

// The hex digit that a byte is, or 0.
pub fn digit(b: u8) -> u64
    ensures { result ≡ digit_of b }
{
    if b <= b'9' {
        if b'0' <= b {
            return (b - b'0') as u64;
        }
        return 0;
    }
    if b <= b'f' {
        if b'a' <= b {
            return (b - b'a') as u64 + 10;
        }
    }
    0
}

// The number whose 16 hex digits start at `from`.
pub fn number(line: &[u8], from: usize) -> u64
    requires { from + 16 ≤ length line.now }
    ensures { result ≡ hex_of line.now from 16 }
{
    let mut n = 0u64;
    for i in 0..16usize {
        n = n * 16 + digit(line[from + i]);
    }
    n
}

// The float of those bits.
pub fn float(bits: u64) -> f64
    ensures { result ≡ float_of bits }
{
    if bits & 0x7fff_ffff_ffff_ffff > 0x7ff0_0000_0000_0000 {
        return 0.0 / 0.0;
    }
    f64::from_bits(bits)
}

// The bits of a float, as a list writes them.
pub fn bits_of(x: f64) -> u64
    ensures { result ≡ bits_of x }
{
    if x != x {
        return NAN;
    }
    f64::to_bits(x)
}

// Number j of a line.
pub fn asked(line: &[u8], j: usize) -> f64
    requires { 17 * j + 18 ≤ length line.now }
    ensures { result ≡ asked_of line.now j }
{
    float(number(line, 2 + 17 * j))
}

// The triangle of a line's first nine numbers.
pub fn triangle(line: &[u8]) -> Triangle
    requires { 154 ≤ length line.now }
    ensures { result ≡ triangle_of line.now }
{
    Triangle {
        ax: asked(line, 0),
        ay: asked(line, 1),
        az: asked(line, 2),
        bx: asked(line, 3),
        by: asked(line, 4),
        bz: asked(line, 5),
        cx: asked(line, 6),
        cy: asked(line, 7),
        cz: asked(line, 8),
    }
}

// 1 where a and b are not the same.
pub fn unlike(a: u64, b: u64) -> u64
    ensures { result ≡ unlike_of a b }
{
    if a == b { 0 } else { 1 }
}

// 1 where a contact is a height.
pub fn height(c: Option<Contact>) -> u64
    ensures { result ≡ heights_in c }
{
    match c {
        None => 0,
        Some(_) => 1,
    }
}

// 1 where a contact is not the one that stands behind a line's 15 numbers: 0, or 1 and the height.
#[tactic(auto, unfolding(crate::specs::Lines::differs_from))]
pub fn differs(line: &[u8], c: Option<Contact>) -> u64
    requires { 275 ≤ length line.now }
    ensures { result ≡ differs_from line.now c }
{
    match c {
        None => unlike(digit(line[257]), 0),
        Some(met) => {
            if digit(line[257]) == 1 {
                unlike(bits_of(met.height), number(line, 259))
            } else {
                1
            }
        }
    }
}
