// Rows: where the rows of a level lie, and where the samples of a row.
#![tactic(auto)]

ghost use Rattle.std.specs.Prelude.{◌≡◌};
ghost use Rattle.rows.specs.Lanes.{spread_of, parts_of, intervals_of, step_of, samples_of, cross_of, along_of, laid_of, between};

use levels::Level;
use runs::Run;

// The axis that rows go along.
#[derive(Clone, Copy)]
pub enum Axis {
    X,
    Y,
}

// How far a level's rows reach: along the axis from a0 to a1, across it from c0 to c1.
#[derive(Clone, Copy)]
pub struct Spread {
    pub a0: f64,
    pub a1: f64,
    pub c0: f64,
    pub c1: f64,
}

// One row: the axis, how far it reaches, how many samples it is parted into, where it lies across the axis, and the height of its cuts.
#[derive(Clone, Copy)]
pub struct Lane {
    pub axis: Axis,
    pub spread: Spread,
    pub samples: usize,
    pub cross: f64,
    pub z: f64,
}

// How far a level's rows reach.
pub fn spread_of(axis: Axis, r: f64, l: Level) -> Spread
    ensures { result ≡ spread_of axis r l }
{
    match axis {
        Axis::X => Spread {
            a0: l.low_x - r,
            a1: l.high_x + r,
            c0: l.low_y - r,
            c1: l.high_y + r,
        },
        Axis::Y => Spread {
            a0: l.low_y - r,
            a1: l.high_y + r,
            c0: l.low_x - r,
            c1: l.high_x + r,
        },
    }
}

// Into how many steps a width is parted.
fn parts(width: f64, step: f64) -> usize
    ensures { result ≡ parts_of width step }
{
    numbers::cut(numbers::max(numbers::round_up(width / step), 1.0)) as usize
}

// How many intervals the rows have.
pub fn intervals(s: Spread, stepover: f64) -> usize
    ensures { result ≡ intervals_of s stepover }
{
    parts(s.c1 - s.c0, stepover)
}

// How far apart samples lie at most.
pub fn step(stepover: f64, r: f64) -> f64
    ensures { result ≡ step_of stepover r }
{
    numbers::min(stepover, r) / 4.0
}

// Into how many samples a row is parted.
pub fn samples(s: Spread, h: f64) -> usize
    ensures { result ≡ samples_of s h }
{
    parts(s.a1 - s.a0, h)
}

// Where a row lies across the axis.
pub fn cross(s: Spread, intervals: usize, row: usize) -> f64
    ensures { result ≡ cross_of s intervals row }
{
    let pitch = (s.c1 - s.c0) / std::num::nearest_u64_to_f64(intervals as u64);
    s.c0 + std::num::nearest_u64_to_f64(row as u64) * pitch
}

// Where sample k of a row lies along it.
fn along(s: Spread, samples: usize, k: usize) -> f64
    ensures { result ≡ along_of s samples k }
{
    s.a0 + (s.a1 - s.a0) * std::num::nearest_u64_to_f64(k as u64)
        / std::num::nearest_u64_to_f64(samples as u64)
}

// The run of a row from sample i to sample j.
pub fn run_between(l: Lane, i: usize, j: usize) -> Run
    ensures { result ≡ between l i j }
{
    let s = l.spread;
    let a = along(s, l.samples, i);
    let b = along(s, l.samples, j);
    let axis = l.axis;
    laid(axis, a, b, l.cross, l.z)
}

// The run along an axis from a to b.
fn laid(axis: Axis, a: f64, b: f64, c: f64, z: f64) -> Run
    ensures { result ≡ laid_of axis a b c z }
{
    match axis {
        Axis::X => Run {
            ax: a,
            ay: c,
            bx: b,
            by: c,
            z,
        },
        Axis::Y => Run {
            ax: c,
            ay: a,
            bx: c,
            by: b,
            z,
        },
    }
}
