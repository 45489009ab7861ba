// hypot by the bits of two magnitudes. The fast way takes a candidate from floats and checks it in whole numbers; where the check fails, and near the ends of
// the range, the digits are found one by one. Nothing is proved of how near the candidate is.
ghost use Rattle.std.specs.Prelude.{◌≡◌, ◌+◌, ◌-◌, ◌*◌, ◌/◌, ◌^◌, ◌<◌, ◌≤◌, min, max, not, T, is_nan};
ghost use Rattle.roots.specs.Inside.{place_of, infinite_bits, of_sizes, Settled, Clear};

use crate::wide;

// A candidate: whether the root has a digit before the larger operand's first, and its 53 digits.
#[derive(Clone, Copy)]
struct Guess {
    over: u64,
    digits: u64,
}

// Some steps, and how far they go.
#[derive(Clone, Copy)]
struct Stride {
    count: u64,
    length: u64,
}

// hypot of the magnitudes with the bits a and b, a being the larger. Where b's first digit lies 27 or more behind a's, a is nearest. z is a float near the sum
// of the squares, and where they would leave the range another is taken; nothing is asked of how near.
pub fn of_sizes(a: u64, b: u64, z: f64) -> f64
    requires { (b ≤ a) × (a ≤ infinite_bits) × T (not (is_nan z)) }
    ensures { result ≡ of_sizes a b }
{
    let p = a >> 52;
    if std::num::wrapping_sub_u64(p, 28) >= 2018 {
        return by_digits(a, b);
    }
    let k = p - (b >> 52);
    if k >= 27 {
        return f64::from_bits(a);
    }
    if std::num::wrapping_sub_u64(p, 512) >= 1023 {
        return by_guess(
            a,
            b,
            k,
            near_sum(a & crate::FRACTION, b & crate::FRACTION, k),
            1022,
        );
    }
    by_guess(a, b, k, z, p)
}

// The larger of two whole numbers.
pub fn larger(a: u64, b: u64) -> u64
    ensures { result ≡ max a b }
{
    if a < b { b } else { a }
}

// The smaller of two whole numbers.
pub fn smaller(a: u64, b: u64) -> u64
    ensures { result ≡ min a b }
{
    if a < b { a } else { b }
}

// The same for two normal numbers with exponents k apart, by a float z near the sum of their squares, in which the larger's exponent has the field p. The
// candidate is right if the check gives 53 digits, the least number of 53 digits left out.
fn by_guess(a: u64, b: u64, k: u64, z: f64, p: u64) -> f64
    requires { (b ≤ a) × (28 ≤ a / 2 ^ 52) × (a / 2 ^ 52 < 2046) × (b / 2 ^ 52 + k ≡ a / 2 ^ 52) × (k ≤ 26) × T (not (is_nan z)) }
    ensures { result ≡ of_sizes a b }
{
    let m = a & crate::FRACTION;
    let n = b & crate::FRACTION;
    let g = guessed(z, p);
    let i = g.over;
    let s = checked(m + crate::LEADING, n + crate::LEADING, k, i, g.digits);
    if std::num::wrapping_sub_u64(s, crate::LEADING + 1) < crate::LEADING - 1 {
        return f64::from_bits((((a >> 52) - 1 + i) << 52) + s);
    }
    by_digits(a, b)
}

// A float near the sum of the squares of 2^52 + m and 2^52 + n, n's digits counted k places lower, the larger taken as 1/2 to 1.
fn near_sum(m: u64, n: u64, k: u64) -> f64
    requires { (m < 2 ^ 52) × (n < 2 ^ 52) × (k ≤ 26) }
    ensures { T (not (is_nan result)) }
{
    let x = f64::from_bits(0x3fe0_0000_0000_0000 + m);
    let y = f64::from_bits(((1022 - k) << 52) + n);
    let z = x * x + y * y;
    if z != z {
        return 1.0;
    }
    z
}

// The candidate by a float z near the sum of the squares, p being the field of the larger operand's exponent. Half of z's exponent is the root's.
fn guessed(z: f64, p: u64) -> Guess
    requires { T (not (is_nan z)) }
    ensures { (result.over ≤ 1) × (2 ^ 52 ≤ result.digits) × (result.digits < 2 ^ 53) }
{
    let bits = f64::to_bits(z);
    let part = f64::from_bits((bits & 0x1f_ffff_ffff_ffff) + 0x3fe0_0000_0000_0000);
    let y = near_root(part, seeds::first_guess((bits >> 49) & 15, part));
    Guess {
        over: std::num::wrapping_sub_u64(((bits >> 52) + 1023) >> 1, p) & 1,
        digits: crate::digits_of(y),
    }
}

// A float near the root of z, for z from 1/2 to 2, from a p near 1 / sqrt(z) to 16 digits: a step of Newton's makes that 32, and the last line adds what is
// missing.
fn near_root(z: f64, p: f64) -> f64 {
    let g0 = z * p;
    let h0 = 0.5 * p;
    let k = 1.5 - g0 * h0;
    let g = g0 * k;
    g + (z - g * g) * (h0 * k)
}

// The root of m * m + n * n / 4^k, over 2^i, rounded, if it lies within one of c; else 0, and 0 also where it lies too near to a middle to tell. Both operands
// go to one scale: 2 * m over 2^i is x, and 2 * n over 2^(k + i) is u and f behind the point.
fn checked(m: u64, n: u64, k: u64, i: u64, c: u64) -> u64
    requires { (m < 2 ^ 53) × (n < 2 ^ 53) × (k ≤ 26) × (i ≤ 1) × (2 ^ 52 ≤ c) × (c < 2 ^ 53) }
    ensures { Settled result (4 * (m * m * 4 ^ k + n * n)) (4 ^ (k + i)) }
{
    let h = k + i;
    columns(m * (2 - i), (2 * n) >> h, (n << (28 - h)) & 0x7ff_ffff, c)
}

// The same from there. The sum of the squares is taken in columns of 27 digits; below the last it is cut off.
fn columns(x: u64, u: u64, f: u64, c: u64) -> u64
    requires { (x < 2 ^ 54) × (u < 2 ^ 54) × (f < 2 ^ 27) × (2 ^ 52 ≤ c) × (c < 2 ^ 53) }
    ensures { Settled result (x * x * 2 ^ 54 + (u * 2 ^ 27 + f) * (u * 2 ^ 27 + f)) (2 ^ 54) }
{
    let x1 = x >> 27;
    let x0 = x & 0x7ff_ffff;
    let u1 = u >> 27;
    let u0 = u & 0x7ff_ffff;
    settled(
        x1 * x1 + u1 * u1,
        x1 * x0 + u1 * u0,
        x0 * x0 + u0 * u0 + 2 * (u1 * f),
        c,
    )
}

// The check. One of s - 1, s and s + 1, if c2 * 2^54 + c1 * 2^28 + c0 and 2^29 more lie between the squares of its two middles, taken four times; else 0.
// 2 * s is a * 2^27 + b. Each difference is lifted by a constant, and tested before the next.
fn settled(c2: u64, c1: u64, c0: u64, s: u64) -> u64
    requires { (c2 < 2 ^ 56) × (c1 < 2 ^ 56) × (c0 < 2 ^ 57) × (2 ^ 52 ≤ s) × (s < 2 ^ 53) }
    ensures { Clear result (c2 * 2 ^ 54 + c1 * 2 ^ 28 + c0) }
{
    let a = s >> 26;
    let b = 2 * (s & 0x3ff_ffff);
    let high = std::num::wrapping_sub_u64(c2 + 0x4000_0000, a * a);
    if high >= 0x8000_0000 {
        return 0;
    }
    let d = std::num::wrapping_sub_u64((high << 26) + c1, a * b + 0xff_ffff_8000_0000);
    if d >= 0x1_0000_0000 {
        return 0;
    }
    let u = std::num::wrapping_sub_u64((d << 28) + c0 + 12 * s, b * b + 0x800_0000_0000_0000);
    let e = steps(u, 8 * s);
    if std::num::wrapping_sub_u64(u - e.length, 0x4000_0000) >= 8 * s - 0x8000_0000 {
        return 0;
    }
    s - 1 + e.count
}

// How many times w goes into u below it, at most 2, and that many times w.
fn steps(u: u64, w: u64) -> Stride
    requires { w < 2 ^ 56 }
    ensures { (result.count ≤ 2) × (result.length ≡ result.count * w) × (result.length ≤ u) }
{
    if u <= w {
        return Stride {
            count: 0,
            length: 0,
        };
    }
    if u <= 2 * w {
        return Stride {
            count: 1,
            length: w,
        };
    }
    Stride {
        count: 2,
        length: 2 * w,
    }
}

// hypot of the magnitudes with the bits a and b, a being the larger, digit by digit. Beside a zero it is a, so that two zeros, as of a point's own distance,
// take no digits.
fn by_digits(a: u64, b: u64) -> f64
    requires { (b ≤ a) × (a ≤ infinite_bits) }
    ensures { result ≡ of_sizes a b }
{
    if a >= wide::INFINITE {
        return 1.0 / 0.0;
    }
    if b == 0 {
        return f64::from_bits(a);
    }
    let p = place(a);
    let q = place(b);
    if p - q >= 27 {
        return f64::from_bits(a);
    }
    wide::by_digits(0, a - (p << 52), b - (q << 52), p, p - q)
}

// The place of the last digit.
fn place(a: u64) -> u64
    ensures { result ≡ place_of a }
{
    let p = a >> 52;
    if p == 0 {
        return 0;
    }
    p - 1
}
