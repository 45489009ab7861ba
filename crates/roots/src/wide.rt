// The root of a whole number of up to 109 digits, digit by digit. A number that wide is kept in two words.
ghost use Rattle.std.specs.Prelude.{◌≡◌, ◌+◌, ◌-◌, ◌*◌, ◌/◌, ◌^◌, ◌<◌, ◌≤◌, ◌⊎◌};
ghost use Rattle.roots.specs.Hypot.{NearestEven, hypot_of_count};
ghost use Rattle.roots.specs.Inside.{Lowered, RootAt, UnderRoot};

// the bits of plus infinity
pub const INFINITE: u64 = 0x7ff0_0000_0000_0000;

// the 55 digits of the lower word
const LOW: u64 = 0x7f_ffff_ffff_ffff;

// The number hi * 2^55 + lo.
#[derive(Clone, Copy)]
pub struct Wide {
    pub hi: u64,
    pub lo: u64,
}

// A root, digit by digit. A w that is not 0 asks for the f64 whose digits are the whole number nearest to the root of w * 2^52, p being the place of the last
// of them; else it is hypot of m * 2^p and n * 2^(p - k) smallest f64s. One function for both, so that a program has the digits' loop once: the compiler copies
// a shorter one into both of its callers, and one that it can shorten by a caller's constants too. So beside a w a caller hands over an m and n that count for
// nothing.
pub fn by_digits(w: u64, m: u64, n: u64, p: u64, k: u64) -> f64
    requires { (w < 2 ^ 54) × (m < 2 ^ 53) × (n < 2 ^ 53) × (p ≤ 2045) × (k ≤ 26) × (k ≤ p) × ((p ≡ 0) ⊎ (2 ^ 52 ≤ m)) }
    ensures { (w ≡ 0 → result ≡ hypot_of_count (m * 2 ^ p * (m * 2 ^ p) + n * 2 ^ (p - k) * (n * 2 ^ (p - k)))) × (0 < w → p ≤ 2044 → RootAt w p result) }
{
    let v = under_root(w, m, n, k);
    let j = v.hi >> 54;
    let t = lowered(v, 2 * j);
    let r = ((p + j) << 52) + nearest_root(t.hi, t.lo);
    if r >= INFINITE {
        return 1.0 / 0.0;
    }
    f64::from_bits(r)
}

// What stands under the root, eight times: w * 2^52, or (m * m * 4^k + n * n) / 4^k.
fn under_root(w: u64, m: u64, n: u64, k: u64) -> Wide
    requires { (w < 2 ^ 54) × (m < 2 ^ 53) × (n < 2 ^ 53) × (k ≤ 26) }
    ensures { (result.hi < 2 ^ 55) × (result.lo < 2 ^ 55) × UnderRoot w m n k (result.hi * 2 ^ 55 + result.lo) }
{
    if w != 0 {
        return Wide { hi: w, lo: 0 };
    }
    sum(m, n, k)
}

// The whole number nearest to the root of (hi * 2^55 + lo) / 8, ties to even. q takes the digit r where its square is then still not above; rest is what is
// left, and low the digits that have not come down to it.
fn nearest_root(hi: u64, lo: u64) -> u64
    requires { (hi < 2 ^ 54) × (lo < 2 ^ 55) }
    ensures { NearestEven (hi * 2 ^ 55 + lo) 2 result }
{
    let mut rest = 2 * hi + (lo >> 54);
    let mut low = lo & 0x3f_ffff_ffff_ffff;
    let mut q = 0u64;
    let mut r = 0x20_0000_0000_0000u64;
    while r != 0 {
        let t = 2 * q + r;
        if t <= rest {
            rest = rest - t;
            q = q + r;
        }
        rest = 2 * rest;
        if low >= r {
            low = low - r;
            rest = rest + 1;
        }
        r = r >> 1;
    }
    // q has 54 digits, the last for a half; where nothing is left of an odd q, the root lies midway
    let s = q >> 1;
    if rest == 0 {
        return s + (q & s & 1);
    }
    s + (q & 1)
}

// 8 * (m * m * 4^k + n * n) / 4^k
fn sum(m: u64, n: u64, k: u64) -> Wide
    requires { (m < 2 ^ 53) × (n < 2 ^ 53) × (k ≤ 26) }
    ensures { (result.hi < 2 ^ 55) × (result.lo < 2 ^ 55) × Lowered (8 * (m * m) * 2 ^ (2 * k) + 8 * (n * n)) (result.hi * 2 ^ 55 + result.lo) (2 * k) }
{
    let x = eight_squares(m);
    let y = lowered(eight_squares(n), 2 * k);
    carried(x.hi + y.hi, x.lo + y.lo)
}

// 8 * x * x
fn eight_squares(x: u64) -> Wide
    requires { x < 2 ^ 53 }
    ensures { (result.hi < 2 ^ 54) × (result.lo < 2 ^ 55) × (result.hi * 2 ^ 55 + result.lo ≡ 8 * (x * x)) }
{
    let a = x >> 26;
    let b = x & 0x3ff_ffff;
    let c = a * b;
    carried(a * a + (c >> 25), ((c & 0x1ff_ffff) << 30) + 8 * (b * b))
}

// hi * 2^55 + lo, the carry out of lo brought over
fn carried(hi: u64, lo: u64) -> Wide
    requires { (hi < 2 ^ 60) × (lo < 2 ^ 60) }
    ensures { (result.lo < 2 ^ 55) × (result.hi * 2 ^ 55 + result.lo ≡ hi * 2 ^ 55 + lo) }
{
    Wide {
        hi: hi + (lo >> 55),
        lo: lo & LOW,
    }
}

// v / 2^c, its last digit set where anything was lost
fn lowered(v: Wide, c: u64) -> Wide
    requires { (v.hi < 2 ^ 55) × (v.lo < 2 ^ 55) × (c ≤ 52) }
    ensures { (result.hi ≡ v.hi / 2 ^ c) × (result.lo < 2 ^ 55) × Lowered (v.hi * 2 ^ 55 + v.lo) (result.hi * 2 ^ 55 + result.lo) c }
{
    let hi = v.hi;
    let lo = v.lo;
    let low = (lo >> c) + ((hi << (55 - c)) & LOW);
    if lo & ((1u64 << c) - 1) == 0 {
        return Wide {
            hi: hi >> c,
            lo: low,
        };
    }
    Wide {
        hi: hi >> c,
        lo: low | 1,
    }
}
