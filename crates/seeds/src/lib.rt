// Where a root's search starts: 1 / sqrt(z) for z from 1/2 to 2, as 16 parabolas. `numbers` takes a candidate from them and checks it, so no answer turns on
// how near they are; each comes within 2^-15 of 1 / sqrt at five points of its stretch, or a search would only take longer. The first 8 share out 1/2 to 1
// evenly, the others 1 to 2; each meets 1 / sqrt at three points of its stretch. A `match` on constants becomes a table that is only read, and one of 16 is
// short enough for the compiler to put into each place that calls it, where one of 128 was called.
#![tactic(auto)]

ghost use Rattle.std.specs.Prelude.{◌≡◌, true};
ghost use Rattle.seeds.specs.Near.{is_curve};

// The parabola a - b * z + c * z * z, as a, b and c.
#[derive(Clone, Copy)]
pub struct Curve(pub f64, pub f64, pub f64);

// A float near 1 / sqrt(z), by the parabola of stretch i.
pub fn first_guess(i: u64, z: f64) -> f64 {
    let c = curve_of(i);
    (c.0 - c.1 * z) + c.2 * (z * z)
}

// The parabola of stretch i, and a level line past the last.
pub fn curve_of(i: u64) -> Curve
    ensures { is_curve i result.0 result.1 result.2 ≡ true }
{
    match i {
        0 => Curve(2.5745694, 3.2339805, 1.8264455),
        1 => Curve(2.4349038, 2.7360592, 1.3825497),
        2 => Curve(2.3157820, 2.3540421, 1.0762098),
        3 => Curve(2.2126103, 2.0533681, 0.8571087),
        4 => Curve(2.1221166, 1.8116882, 0.6957231),
        5 => Curve(2.0418983, 1.6139745, 0.5738822),
        6 => Curve(1.9701458, 1.4497875, 0.4799475),
        7 => Curve(1.9054668, 1.3116729, 0.4062087),
        8 => Curve(1.8204955, 1.1433848, 0.3228730),
        9 => Curve(1.7217370, 0.9673430, 0.2444026),
        10 => Curve(1.6375052, 0.8322796, 0.1902488),
        11 => Curve(1.5645518, 0.7259753, 0.1515168),
        12 => Curve(1.5005630, 0.6405285, 0.1229876),
        13 => Curve(1.4438401, 0.5706261, 0.1014490),
        14 => Curve(1.3931034, 0.5125773, 0.0848435),
        15 => Curve(1.3473685, 0.4637464, 0.0718082),
        _ => Curve(1.0, 0.0, 0.0),
    }
}
