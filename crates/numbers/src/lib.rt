// Document 01, "Numbers": what the planner does with one or two f64s beside +, -, *, / and comparing. Each function is equal to its definition in
// specs/, on every f64. `laws` holds theorems on them.
#![tactic(auto)]

ghost use Rattle.std.specs.Prelude.{◌≡◌, ◌+◌, ◌*◌, ◌/◌, ◌^◌, ◌<◌, true, false, bit_and, from_bits};
ghost use Rattle.std.specs.Float.{binary64};
ghost use Rattle.numbers.specs.Reals.{max_of, min_of, abs_of, clamp_unit};
ghost use Rattle.numbers.specs.Rounding.{round_down_of, round_up_of, truncated};
ghost use Rattle.numbers.specs.Order.{total_less};

pub mod laws;

// all of an f64's bits but the sign
pub const MAGNITUDE: u64 = 0x7fff_ffff_ffff_ffff;

const MINUS_ONE: f64 = -1.0;

// The larger; x if they compare equal, and where one is a NaN the other.
pub fn max(x: f64, y: f64) -> f64
    ensures { result ≡ max_of x y }
{
    if x != x { y } else { if x < y { y } else { x } }
}

// The smaller; x if they compare equal, and where one is a NaN the other.
pub fn min(x: f64, y: f64) -> f64
    ensures { result ≡ min_of x y }
{
    if x != x { y } else { if y < x { y } else { x } }
}

// x with its sign cleared, also that of -0.0: the larger of x and 0 - x, which is +0.0 where x is a zero.
pub fn abs(x: f64) -> f64
    ensures { result ≡ abs_of x }
{
    let y = 0.0 - x;
    if y < x { x } else { y }
}

// t held to 0..1; -0.0 and a NaN stay.
pub fn clamp_unit(t: f64) -> f64
    ensures { result ≡ clamp_unit t }
{
    if t < 0.0 {
        0.0
    } else {
        if t > 1.0 { 1.0 } else { t }
    }
}

// The largest whole number not above x. Where the magnitude is 1 or more, `behind` masks the digits that stand behind the point. A negative number
// grows by all of them before they are masked off, so that it moves away from zero unless it is whole; a carry out of the fraction goes to the
// exponent, as it should.
pub fn round_down(x: f64) -> f64
    ensures { result ≡ round_down_of x }
{
    if x != x {
        return x;
    }
    let bits = f64::to_bits(x);
    let sign = bits >> 63;
    let exponent = (bits >> 52) & 0x7ff;
    if exponent >= 1075 {
        return x;
    }
    if exponent < 1023 {
        return round_down_small(x, bits);
    }
    let behind = (1u64 << (1075 - exponent)) - 1;
    let grown = bits + behind * sign;
    f64::from_bits(grown - (grown & behind))
}

// The smallest whole number not below x. What lies between -1 and 0 gives -0.0.
pub fn round_up(x: f64) -> f64
    ensures { result ≡ round_up_of x }
{
    -round_down(-x)
}

// Rust's `x as u64`, which has an answer for every x.
pub fn cut(x: f64) -> u64
    ensures { result ≡ truncated x }
{
    if x >= 1.0 {
        if x < 18446744073709551616.0 {
            return std::num::truncating_f64_to_u64(x);
        }
        return 18446744073709551615;
    }
    0
}

// Whether x comes before y in the total order: -0.0 before +0.0, a NaN last.
pub fn total_less(x: f64, y: f64) -> bool
    ensures { result ≡ total_less x y }
{
    if x < y {
        return true;
    }
    if y < x {
        return false;
    }
    if x != x {
        return false;
    }
    if y != y {
        return true;
    }
    (f64::to_bits(x) >> 63) > (f64::to_bits(y) >> 63)
}

// Rounding down, for an x of a magnitude below 1, by its bits.
fn round_down_small(x: f64, bits: u64) -> f64
    requires { (x ≡ from_bits binary64 bits) × (bit_and (bits / 2 ^ 52) 2047 < 1023) }
    ensures { result ≡ round_down_of x }
{
    if bits & MAGNITUDE == 0 {
        return x;
    }
    if bits >> 63 != 0 {
        return MINUS_ONE;
    }
    0.0
}
