// The lines of a listing, written one after the other into a lent buffer.
//
// Each function is told where the text ends and answers where it ends then. The bytes before and behind stay.
#![tactic(auto)]

ghost use Rattle.std.specs.Prelude.{◌≡◌, ◌&&◌, [], ◌∷◌, ◌++◌, ◌+◌, ◌-◌, ◌≤◌, ◌<◌, eqb, length};
ghost use Rattle.std.specs.Float.{binary64};
ghost use Rattle.std.specs.Float.Ieee.{to_bits};
ghost use Rattle.lines.specs.Lines.{glyph_of, spelled, decimal, hex_bits, head_line, answer_line, refused_line};
ghost use Rattle.lines.specs.Inside.{Wrote};

// The first line of a listing.
pub fn head_line(out: &mut [u8], at: usize, n: u32, m: u32, columns: usize, rows: usize) -> usize
    requires { at + 90 ≤ length out.old }
    ensures { Wrote out.old out.new at result (head_line n m columns rows) × (result ≤ at + 90) }
{
    let a = put_word(out, at, b"FTM 1 ");
    let b = put_decimal(out, a, n as u64, b' ');
    let c = put_decimal(out, b, m as u64, b' ');
    let d = put_decimal(out, c, columns as u64, b' ');
    put_decimal(out, d, rows as u64, b'\n')
}

// The line of question i.
pub fn answer_line(
    out: &mut [u8],
    at: usize,
    i: usize,
    refusal: u32,
    height: f64,
    count: u32,
) -> usize
    requires { at + 80 ≤ length out.old }
    ensures { Wrote out.old out.new at result (answer_line i refusal height count) × (result ≤ at + 80) }
{
    let a = put_decimal(out, at, i as u64, b' ');
    let b = put_decimal(out, a, refusal as u64, b' ');
    let c = put_bits(out, b, height, b' ');
    put_decimal(out, c, count as u64, b'\n')
}

// The only line of a refused job.
pub fn refused_line(out: &mut [u8], at: usize, k: u32) -> usize
    requires { at + 29 ≤ length out.old }
    ensures { Wrote out.old out.new at result (refused_line k) × (result ≤ at + 29) }
{
    let a = put_word(out, at, b"refused ");
    put_decimal(out, a, k as u64, b'\n')
}

// A number, and what stands behind it.
fn put_decimal(out: &mut [u8], at: usize, n: u64, end: u8) -> usize
    requires { at + 21 ≤ length out.old }
    ensures { Wrote out.old out.new at result (decimal n ++ (end ∷ [])) × (result ≤ at + 21) }
{
    let p = spell(out, at, n, 10, 1, 20);
    put(out, p, end)
}

// A height's bits, and what stands behind them.
fn put_bits(out: &mut [u8], at: usize, x: f64, end: u8) -> usize
    requires { at + 17 ≤ length out.old }
    ensures { Wrote out.old out.new at result (hex_bits x ++ (end ∷ [])) × (result ≤ at + 17) }
{
    let p = spell(out, at, bits(x), 16, 16, 16);
    put(out, p, end)
}

// The bits of a number. Every NaN gives one pattern, that with only the highest digit set.
fn bits(x: f64) -> u64
    ensures { result ≡ to_bits binary64 x }
{
    if x != x {
        return 0x7ff8_0000_0000_0000;
    }
    f64::to_bits(x)
}

// The digits of n: the higher ones first, by a call of itself, then the last.
fn spell(out: &mut [u8], at: usize, n: u64, base: u64, least: usize, k: usize) -> usize
    requires { (at + k ≤ length out.old) × (1 ≤ base) × (base ≤ 16) }
    ensures { Wrote out.old out.new at result (spelled base least k n) }
{
    if k == 0 {
        return at;
    }
    if is_done(n, least) {
        return at;
    }
    let p = spell(out, at, n / base, base, one_less(least), k - 1);
    put(out, p, glyph(n % base))
}

// No digit is left and none is owed.
fn is_done(n: u64, least: usize) -> bool
    ensures { result ≡ (eqb n 0 && eqb least 0) }
{
    n == 0 && least == 0
}

fn one_less(least: usize) -> usize
    ensures { result ≡ least - 1 }
{
    if least == 0 { 0 } else { least - 1 }
}

fn glyph(d: u64) -> u8
    requires { d < 16 }
    ensures { result ≡ glyph_of d }
{
    if d < 10 { 48 + d as u8 } else { 87 + d as u8 }
}

fn put_word(out: &mut [u8], at: usize, word: &[u8]) -> usize
    requires { at + length word.now ≤ length out.old }
    ensures { Wrote out.old out.new at result word.now }
{
    for i in 0..word.len() {
        out[at + i] = word[i];
    }
    at + word.len()
}

fn put(out: &mut [u8], at: usize, b: u8) -> usize
    requires { at < length out.old }
    ensures { Wrote out.old out.new at result (b ∷ []) }
{
    out[at] = b;
    at + 1
}
