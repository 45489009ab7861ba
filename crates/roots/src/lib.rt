// Document 01, "Numbers": the root, and hypot of document 02, request 6, both correctly rounded, each equal to its definition in specs/ on every f64. `laws`
// holds theorems on them. The root of a number above zero, m * 2^e: which significand is nearest is decided in whole numbers. A float gives a candidate, whole
// numbers check it, and where it fails the root is found digit by digit.
#![tactic(auto)]

ghost use Rattle.std.specs.Prelude.{◌≡◌, ◌+◌, ◌*◌, ◌/◌, ◌%◌, ◌^◌, ◌<◌, ◌≤◌, true, false, ◌||◌, negsuc, if◌then◌else◌};
ghost use Rattle.std.specs.Float.{nan, inf, fin};
ghost use Rattle.std.specs.Float.Ieee.{minus, le};
ghost use Rattle.roots.specs.Root.{Nearest, root_of};
ghost use Rattle.roots.specs.Hypot.{hypot_of, infinite};
ghost use Rattle.roots.specs.Inside.{Exponent, lifted, least_normal};

pub mod hypots;
pub mod laws;
pub mod wide;

// An f64's fraction has 52 digits; a normal number leaves out the one before them.
pub const FRACTION: u64 = 0xf_ffff_ffff_ffff;

pub const LEADING: u64 = 0x10_0000_0000_0000;

// 2^-1022
const LEAST_NORMAL: f64 = 2.2250738585072014e-308;

// The root of x, correctly rounded. The bits are taken apart into sign, exponent and fraction; one test at the start settles all normal numbers above
// zero, whose sign is clear and whose fraction has a leading digit.
pub fn root(x: f64) -> f64
    ensures { result ≡ root_of x }
{
    if x >= LEAST_NORMAL {
        let bits = f64::to_bits(x);
        let exponent = bits >> 52;
        if exponent == 0x7ff {
            return x;
        }
        return root_of(
            (bits & FRACTION) | LEADING,
            difference(exponent as u32, 1075),
        );
    }
    root_below_normal(x)
}

// How far (x, y) lies from (0, 0), correctly rounded, by the bits of the two magnitudes. The sum of the squares, which starts the search for the root, is a NaN
// exactly where x or y is.
pub fn hypot(x: f64, y: f64) -> f64
    ensures { result ≡ hypot_of x y }
{
    let z = x * x + y * y;
    if z != z {
        return hypot_of_nan(x, y);
    }
    let a = f64::to_bits(x) & numbers::MAGNITUDE;
    let b = f64::to_bits(y) & numbers::MAGNITUDE;
    hypots::of_sizes(hypots::larger(a, b), hypots::smaller(a, b), z)
}

// The same where one of the two is a NaN: the other may still be infinite.
fn hypot_of_nan(x: f64, y: f64) -> f64
    ensures { result ≡ (if infinite x || infinite y then inf false else nan) }
{
    if numbers::abs(x) == 1.0 / 0.0 {
        return 1.0 / 0.0;
    }
    if numbers::abs(y) == 1.0 / 0.0 {
        return 1.0 / 0.0;
    }
    0.0 / 0.0
}

// The root of what lies below the least normal number, or is a NaN. What has no sign there is zero or subnormal.
fn root_below_normal(x: f64) -> f64
    requires { le least_normal x ≡ false }
    ensures { result ≡ root_of x }
{
    if x != x {
        return x;
    }
    let bits = f64::to_bits(x);
    if bits & numbers::MAGNITUDE == 0 {
        return x;
    }
    if bits >> 63 != 0 {
        return 0.0 / 0.0;
    }
    root_of_subnormal(bits & FRACTION)
}

// The root of f * 2^-1074. The fraction is shifted up by its count of leading zeros, to 53 digits.
fn root_of_subnormal(f: u64) -> f64
    requires { (0 < f) × (f < 2 ^ 52) }
    ensures { result ≡ root_of (fin false f (negsuc 1073)) }
{
    let zeros = u64::leading_zeros(f) - 11;
    root_of(f << zeros, difference(0, 1074 + zeros))
}

// The root of m * 2^e, for an m of 53 digits. The exponent is halved towards minus infinity, and what that leaves, 0 or 1, goes to m. The digits are the whole
// number nearest to the root of m * 2^odd * 2^52: a candidate if it passes the check, as nearly every one does, or else found one by one.
fn root_of(m: u64, e: i64) -> f64
    requires { (2 ^ 52 ≤ m) × (m < 2 ^ 53) × Exponent e }
    ensures { result ≡ root_of (fin false m e) }
{
    let o = odd(e);
    let p = halved(e);
    let s = candidate(m, o);
    if nearest(m << o, s) {
        return f64::from_bits((p << 52) + s);
    }
    wide::by_digits(m << o, m, m, p, 0)
}

// A candidate of 53 digits. They are those of a float near the root of m * 2^-odd / 2^52, which has the digits of the root asked for.
fn candidate(m: u64, odd: u64) -> u64
    requires { (2 ^ 52 ≤ m) × (m < 2 ^ 53) × (odd < 2) }
    ensures { (2 ^ 52 ≤ result) × (result < 2 ^ 53) }
{
    let bits = ((1022 - odd) << 52) + m;
    let z = f64::from_bits(bits);
    digits_of(guess(z, seeds::first_guess((bits >> 49) & 15, z)))
}

// The 53 digits of y.
pub fn digits_of(y: f64) -> u64
    ensures { (2 ^ 52 ≤ result) × (result < 2 ^ 53) }
{
    if y >= 0.5 {
        return (f64::to_bits(y) & FRACTION) | LEADING;
    }
    LEADING
}

// A float near the root of z, for z from 1/2 to 2, from a p near 1 / sqrt(z) to 16 digits. A step of Newton's makes that 32 in g. The last line adds what z
// less the square of g still asks for; it is found from w, g0 to 26 digits, whose square is exact.
fn guess(z: f64, p: f64) -> f64 {
    let g0 = z * p;
    let h0 = 0.5 * p;
    let k = 1.5 - g0 * h0;
    let g = g0 * k;
    let w = (g0 + 100663296.0) - 100663296.0;
    g + ((z - w * w) - (g - w) * (g + w)) * (h0 * k)
}

// a - b
fn difference(a: u32, b: u32) -> i64
    ensures { result ≡ minus a b }
{
    (a as i64) - (b as i64)
}

// 1 where e is odd, else 0.
fn odd(e: i64) -> u64
    requires { Exponent e }
    ensures { result ≡ lifted e % 2 }
{
    (e & 1) as u64
}

// Half of e, rounded down, as the field of the result's exponent less one: the leading digit adds the one.
fn halved(e: i64) -> u64
    requires { Exponent e }
    ensures { result ≡ lifted e / 2 }
{
    ((e >> 1) + 1048) as u64
}

// Whether s is the whole number nearest to the root of m * 2^52; a false may be wrong, a true is not. With s = a * 2^26 + b, m * 2^52 - s * s is
// ((m - a * a) * 2^25 - a * b) * 2^27 - b * b, and the tests keep each step of it within 64 bits.
fn nearest(m: u64, s: u64) -> bool
    requires { (2 ^ 52 ≤ m) × (m < 2 ^ 54) × (2 ^ 52 ≤ s) × (s < 2 ^ 53) }
    ensures { result ≡ true → Nearest (m * 2 ^ 52) s }
{
    let a = s >> 26;
    let b = s & 0x3ff_ffff;
    let high = std::num::wrapping_sub_u64(m, a * a);
    if high >= 0x4000_0000 {
        return false;
    }
    let d = std::num::wrapping_sub_u64((high << 25) + 0x400_0000, a * b);
    if d >= 0x4000_0000 {
        return false;
    }
    // t = m * 2^52 - s * s + s + 2^53, to lie in 2^53 + 1 ..= 2^53 + 2 * s
    let t = (d << 27) + s - b * b;
    std::num::wrapping_sub_u64(t, 0x20_0000_0000_0001) < 2 * s
}
