// Whether a triangle blocks a tool's section on a chord.
#![tactic(auto)]

ghost use Rattle.std.specs.Prelude.{◌≡◌};
ghost use Rattle.golden.specs.Search.{rises, golden_start, golden_step};
ghost use Rattle.golden.specs.Upper.{bracket_start, bracket_step, bracket_run, concave_max_upper};
ghost use Rattle.section.specs.Section.{section_contact};
ghost use Rattle.section_gap.specs.Blocks.{section_gap, section_searched, side_gap, box_far, section_blocks};

use cutters::Stretch;
use golden::{Bracket, Golden};
use plane::{Bounds, Contact, Triangle};
use reach::Chord;
use section::Section;

mod guess;

// Whether a triangle, with its box b, blocks the section k on the chord.
pub fn section_blocks(t: Triangle, b: Bounds, m: Chord, k: Section) -> bool
    ensures { result ≡ section_blocks t b m k }
{
    let high = b.top - k.z0 + m.lift;
    let r1 = k.r1;
    if high <= numbers::min(m.az, m.bz) {
        return false;
    }
    if box_far(b, m, r1) {
        return false;
    }
    searched(t, m, k, reach::stretch_of(t, m, r1, 60))
}

// Whether a box is farther from the chord's than r.
fn box_far(b: Bounds, m: Chord, r: f64) -> bool
    ensures { result ≡ box_far b m r }
{
    let dx = side_gap(b.low_x, b.high_x, m.ax, m.bx);
    let dy = side_gap(b.low_y, b.high_y, m.ay, m.by);
    roots::hypot(dx, dy) > r
}

// How far low..high lies from the values between a and b.
fn side_gap(low: f64, high: f64, a: f64, b: f64) -> f64
    ensures { result ≡ side_gap low high a b }
{
    let left = low - numbers::max(a, b);
    let right = numbers::min(a, b) - high;
    numbers::max(numbers::max(left, right), 0.0)
}

// Whether a contact on the stretch, lifted, may stand above the tip.
#[tactic(auto, unfolding(crate::specs::Blocks::section_searched))]
fn searched(t: Triangle, m: Chord, k: Section, s: Option<Stretch>) -> bool
    ensures { result ≡ section_searched t m k s }
{
    match s {
        None => false,
        Some(part) => bound(t, m, k, part.from, part.to) > 0.0,
    }
}

// An upper bound of how far the contact, lifted, stands above the tip between two places of the chord.
fn bound(t: Triangle, m: Chord, k: Section, lo: f64, hi: f64) -> f64
    ensures { result ≡ concave_max_upper (section_gap t m k) lo hi }
{
    if lo < hi {
        golden::upper_bound(run(t, m, k, first(t, m, k, lo, hi)))
    } else {
        numbers::max(gap(t, m, k, lo), gap(t, m, k, hi))
    }
}

// The search's first bracket, with the values at its ends.
fn first(t: Triangle, m: Chord, k: Section, lo: f64, hi: f64) -> Bracket
    ensures { result ≡ bracket_start (section_gap t m k) lo hi }
{
    let g = start(t, m, k, lo, hi);
    let fa = gap(t, m, k, lo);
    let fb = gap(t, m, k, hi);
    Bracket { g, fa, fb }
}

// The last bracket of the search: at most 60 steps.
fn run(t: Triangle, m: Chord, k: Section, from: Bracket) -> Bracket
    ensures { result ≡ bracket_run (section_gap t m k) 60 from }
{
    let mut s = from;
    for n in 0..60usize {
        s = turn(t, m, k, s);
        let g = s.g;
        if g.x1 < g.x2 {} else {
            return s;
        }
    }
    s
}

// A step of the search that keeps the values at the bracket's ends.
fn turn(t: Triangle, m: Chord, k: Section, s: Bracket) -> Bracket
    ensures { result ≡ bracket_step (section_gap t m k) s }
{
    let g = s.g;
    golden::held(s, step(t, m, k, g))
}

// The search's first bracket.
fn start(t: Triangle, m: Chord, k: Section, lo: f64, hi: f64) -> Golden
    ensures { result ≡ golden_start (section_gap t m k) lo hi }
{
    let u = golden::lower_point(lo, hi);
    let v = golden::upper_point(lo, hi);
    golden::start(lo, hi, gap(t, m, k, u), gap(t, m, k, v))
}

// A step of the search.
fn step(t: Triangle, m: Chord, k: Section, g: Golden) -> Golden
    ensures { result ≡ golden_step rises (section_gap t m k) g }
{
    let left = golden::drops_low(g);
    let p = golden::probe(left, g);
    golden::narrowed(left, g, p, gap(t, m, k, p))
}

// How far the contact, lifted, stands above the tip at u.
fn gap(t: Triangle, m: Chord, k: Section, u: f64) -> f64
    ensures { result ≡ section_gap t m k u }
{
    let x = m.ax + u * (m.bx - m.ax);
    let y = m.ay + u * (m.by - m.ay);
    reach::gap_of(m, u, contact(t, x, y, k))
}

// The contact by itself. What lies lower than a guess of it is left out, unless the contact lies lower too.
fn contact(t: Triangle, x: f64, y: f64, k: Section) -> Option<Contact>
    ensures { result ≡ section_contact t x y k }
{
    let on = above::so_far(guess::start_of(t, x, y, k));
    let c = section::section_contact_on(t, x, y, k, on);
    if above::touches(c) {
        return c;
    }
    section::section_contact(t, x, y, k)
}
