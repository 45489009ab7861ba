// Levels: the flat triangles of a mesh, sorted by z falling, and the groups that they make.
#![tactic(auto)]

ghost use Rattle.std.specs.Prelude.{◌≡◌, ◌++◌, map, ◌+◌, ◌*◌, ◌≤◌, ◌<◌, length, take, drop};
ghost use Rattle.plane.specs.Distance.{bary_of};
ghost use Rattle.fives.specs.Tables.{put_at, written};
ghost use Rattle.sort.specs.Inside.{Within};
ghost use Rattle.levels.specs.Flats.{near_to, even_of, answers, is_flat, flats_of};
ghost use Rattle.levels.specs.Levels.{opened_by, widened_by, levels_from, list_left, levels_of, five_of};
ghost use Rattle.levels.specs.Inside.{listed, gathered_one, grown, grown_by, level_in};

use plane::{Bounds, Triangle};

// A height at which something flat lies, and the box of all that lies there.
#[derive(Clone, Copy)]
pub struct Level {
    pub z: f64,
    pub low_x: f64,
    pub low_y: f64,
    pub high_x: f64,
    pub high_y: f64,
}

// The level that is open, and how many stand in the table.
#[derive(Clone, Copy)]
pub struct Group {
    pub level: Level,
    pub count: usize,
}

// The levels of a mesh written to a table, and how many there are; there may be more than it has room for. The numbers of the flat triangles, sorted, are
// left in front of the list.
pub fn find_levels(
    mesh: &[f64],
    boxes: &[f64],
    list: &mut [u32],
    tolerance: f64,
    level_tolerance: f64,
    floor: f64,
    levels: &mut [f64],
) -> usize
    requires { (length mesh.now ≡ length list.old * 9) × (length list.old ≤ 65536) × (length boxes.now ≡ length list.old * 5) }
    ensures { (levels.new
        ≡ written (map five_of (levels_of mesh.now boxes.now (length list.old) tolerance level_tolerance floor))
        levels.old)
        × (result ≡ length (levels_of mesh.now boxes.now (length list.old) tolerance level_tolerance floor))
        × (list.new ≡ list_left mesh.now (length list.old) tolerance level_tolerance floor list.old) }
{
    let n = list.len();
    let k = gather(mesh, n, list, tolerance, floor + level_tolerance);
    sort::sort(mesh, n, list, k);
    collect(mesh, boxes, n, list, k, level_tolerance, levels)
}

// Level m of a table.
pub fn level_at(levels: &[f64], m: usize) -> Level
    requires { m * 5 + 5 ≤ length levels.now }
    ensures { result ≡ level_in levels.now m }
{
    let at = m * 5;
    Level {
        z: levels[at],
        low_x: levels[at + 1],
        low_y: levels[at + 2],
        high_x: levels[at + 3],
        high_y: levels[at + 4],
    }
}

// The numbers of the flat triangles put in front of the list, in mesh order, and how many there are.
fn gather(mesh: &[f64], n: usize, list: &mut [u32], tolerance: f64, least: f64) -> usize
    requires { (n * 9 ≤ length mesh.now) × (n ≤ length list.old) × (n ≤ 65536) }
    ensures { (result ≡ length (flats_of mesh.now tolerance least n)) × (list.new ≡ flats_of mesh.now tolerance least n ++ drop result list.old) }
{
    let mut k: usize = 0;
    for i in 0..n {
        k = gather_one(mesh, list, tolerance, least, k, i);
    }
    k
}

// Triangle i put behind the first k numbers of the list, if it is flat.
fn gather_one(
    mesh: &[f64],
    list: &mut [u32],
    tolerance: f64,
    least: f64,
    k: usize,
    i: usize,
) -> usize
    requires { (9 * i + 9 ≤ length mesh.now) × (i < 65536) × (k < length list.old) }
    ensures { listed list.new result ≡ gathered_one mesh.now tolerance least list.old k i }
{
    if flat(plane::triangle_at(mesh, i), tolerance, least) {
        list[k] = i as u32;
        return k + 1;
    }
    k
}

// Whether a triangle is flat and its z above `least`.
fn flat(t: Triangle, tolerance: f64, least: f64) -> bool
    ensures { result ≡ is_flat t tolerance least }
{
    even(t, tolerance) && (bary_answers(t) && t.az > least)
}

// Whether all three z lie within the tolerance of the first.
fn even(t: Triangle, tolerance: f64) -> bool
    ensures { result ≡ even_of t tolerance }
{
    near(tolerance, t.az, t.az) && (near(tolerance, t.az, t.bz) && near(tolerance, t.az, t.cz))
}

// Whether z lies within the tolerance of z0.
fn near(tolerance: f64, z0: f64, z: f64) -> bool
    ensures { result ≡ near_to tolerance z0 z }
{
    numbers::abs(z - z0) <= tolerance
}

// Whether `bary` at the first vertex answers.
fn bary_answers(t: Triangle) -> bool
    ensures { result ≡ answers (bary_of t t.ax t.ay) }
{
    match plane::bary(t, t.ax, t.ay) {
        None => false,
        Some(_) => true,
    }
}

// The levels of the first k numbers of the list written to a table, and how many there are.
fn collect(
    mesh: &[f64],
    boxes: &[f64],
    n: usize,
    list: &[u32],
    k: usize,
    level_tolerance: f64,
    levels: &mut [f64],
) -> usize
    requires { (n * 9 ≤ length mesh.now) × Within n k list.now × (k ≤ 65536) × (n * 5 ≤ length boxes.now) }
    ensures { (levels.new
        ≡ written (map five_of (levels_from mesh.now boxes.now level_tolerance (take k list.now))) levels.old)
        × (result ≡ length (levels_from mesh.now boxes.now level_tolerance (take k list.now))) }
{
    if k == 0 {
        return 0;
    }
    let first = list[0] as usize;
    let mut g = Group {
        level: opened_by(plane::triangle_at(mesh, first), grid::box_at(boxes, first)),
        count: 0,
    };
    for j in 1..k {
        let i = list[j] as usize;
        g = grow(
            level_tolerance,
            levels,
            g,
            plane::triangle_at(mesh, i),
            grid::box_at(boxes, i),
        );
    }
    close(levels, g)
}

// One triangle more: it joins the open level, or that one is written and it opens the next.
fn grow(level_tolerance: f64, levels: &mut [f64], g: Group, t: Triangle, b: Bounds) -> Group
    requires { g.count < 65536 }
    ensures { grown levels.new result ≡ grown_by level_tolerance levels.old g t b }
{
    let level = g.level;
    let count = g.count;
    if level.z - t.az <= level_tolerance {
        return Group {
            level: widened_by(level, b),
            count,
        };
    }
    close(levels, g);
    Group {
        level: opened_by(t, b),
        count: count + 1,
    }
}

// The open level written, and how many levels there are with it.
fn close(levels: &mut [f64], g: Group) -> usize
    requires { g.count < 65536 }
    ensures { (levels.new ≡ put_at levels.old g.count (five_of g.level)) × (result ≡ g.count + 1) }
{
    let l = g.level;
    let count = g.count;
    fives::put(levels, count, l.z, l.low_x, l.low_y, l.high_x, l.high_y);
    count + 1
}

// The level that a triangle with the box b opens.
fn opened_by(t: Triangle, b: Bounds) -> Level
    ensures { result ≡ opened_by t b }
{
    Level {
        z: t.az,
        low_x: b.low_x,
        low_y: b.low_y,
        high_x: b.high_x,
        high_y: b.high_y,
    }
}

// The level that a triangle with the box b has joined.
fn widened_by(l: Level, b: Bounds) -> Level
    ensures { result ≡ widened_by l b }
{
    Level {
        z: l.z,
        low_x: numbers::min(l.low_x, b.low_x),
        low_y: numbers::min(l.low_y, b.low_y),
        high_x: numbers::max(l.high_x, b.high_x),
        high_y: numbers::max(l.high_y, b.high_y),
    }
}
