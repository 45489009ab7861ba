// Theorems about root and hypot, each the contract of a function so that the check proves it. Nothing calls these.
ghost use Rattle.std.specs.Prelude.{◌≡◌, true, T};
ghost use Rattle.std.specs.Float.Ieee.{le};
ghost use Rattle.std.specs.Float.Ieee.Positive.{positive};
ghost use Rattle.std.specs.Float.Ieee.Scale.{finite};
ghost use Rattle.numbers.specs.Reals.{f0, abs_of};
ghost use Rattle.roots.specs.Hypot.{hypot_of, HypotBetween, Farther};
ghost use Rattle.roots.specs.Root.{root_of, RootBetween};
ghost use Rattle.roots.specs.Worked.{Worked};

// The root is the nearest f64: a finite x above zero lies between the squares of what is midway to the root's two neighbours.
pub fn root_is_nearest(x: f64) -> f64
    ensures { (result ≡ root_of x) × (T (positive x) → RootBetween x result) }
{
    crate::root(x)
}

// Roots stand in the order of what they are roots of.
pub fn roots_in_order(x: f64, y: f64) -> bool
    ensures { (result ≡ le (root_of x) (root_of y)) × (T (positive x) → T (positive y) → T (le x y) → T result) }
{
    crate::root(x) <= crate::root(y)
}

// hypot is the nearest f64: the squares of what is midway to its two neighbours enclose x*x + y*y.
pub fn hypot_is_nearest(x: f64, y: f64) -> f64
    ensures { (result ≡ hypot_of x y) × (T (finite x) → T (finite y) → HypotBetween x y result) }
{
    crate::hypot(x, y)
}

// Distances stand in the order of the magnitudes.
pub fn hypots_in_order(x: f64, y: f64, u: f64, v: f64) -> bool
    ensures { (result ≡ le (hypot_of x y) (hypot_of u v)) × (Farther x u → Farther y v → T result) }
{
    crate::hypot(x, y) <= crate::hypot(u, v)
}

// A distance is not below either magnitude, and beside a zero it is the magnitude.
pub fn hypot_is_not_below(x: f64, y: f64) -> f64
    ensures { (result ≡ hypot_of x y) × (hypot_of x f0 ≡ abs_of x) × (T (finite x) → T (finite y) → T (le (abs_of x) result) × T (le (abs_of y) result)) }
{
    crate::hypot(x, y)
}

// Worked examples, which come out by computing the definitions: the root of 9, of the smallest and of the largest f64, hypot where squares would vanish or
// overflow, at a tie and at the end of the range.
pub fn worked_examples() -> bool
    ensures { (result ≡ true) × Worked }
{
    true
}
