// An f32 that arrives as its bits, made an f64 of the same value.
#![tactic(auto)]

ghost use Rattle.std.specs.Prelude.{◌≡◌, true};
ghost use Rattle.fields.specs.Rows.{finite};
ghost use Rattle.single.specs.Single.{value_of, IsNumberOf};

// The weight of the exponent in the bits.
const EXPONENT: u32 = 0x80_0000;

// The f64 of the same value: the number of these bits, which are a finite f32's.
pub fn widened(bits: u32) -> f64
    requires { finite (value_of bits) ≡ true }
    ensures value { result ≡ value_of bits }
    ensures number_of { IsNumberOf bits result }
{
    f32::from_bits(bits) as f64
}

// Whether the exponent is not all ones.
#[tactic(auto, using(crate::proofs::Value::bits_finite))]
pub fn is_finite(bits: u32) -> bool
    ensures { result ≡ finite (value_of bits) }
{
    bits / EXPONENT % 256 != 255
}
