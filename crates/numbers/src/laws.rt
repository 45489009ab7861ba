// Theorems about the numbers, each the contract of a function so that the check proves it. Nothing calls these.
ghost use Rattle.std.specs.Prelude.{◌≡◌, true};
ghost use Rattle.numbers.specs.Rounding.{round_down_of, RoundsDown};
ghost use Rattle.numbers.specs.Order.{total_less, TotalOrder};
ghost use Rattle.numbers.specs.Worked.{Worked};

// Rounding down gives the largest whole number not above, keeps the order of x and y, and agrees with truncating.
pub fn round_down_is_largest(x: f64, y: f64) -> f64
    ensures { (result ≡ round_down_of x) × RoundsDown x y }
{
    crate::round_down(x)
}

// The total order is one: total, antisymmetric and transitive, on all f64.
pub fn order_is_total(x: f64, y: f64, z: f64) -> bool
    ensures { (result ≡ total_less x y) × TotalOrder x y z }
{
    crate::total_less(x, y)
}

// Worked examples, which come out by computing the definitions: the rounding down of -1/2 and of -0.0.
pub fn worked_examples() -> bool
    ensures { (result ≡ true) × Worked }
{
    true
}
