// Binary32 numbers and their patterns.
ghost use Rattle.std.specs.Prelude.{◌≡◌, true, from_bits};
ghost use Rattle.std.specs.Float.{binary32};
ghost use Rattle.caps.specs.Floats.{bits_of, finite_bits};
ghost use Rattle.clause.specs.Clauses.{negative_bits};

use caps::SIGN;

// The pattern of infinity: every finite number's, without the sign, is below it.
const INFINITY: u32 = 0x7f80_0000;

pub(crate) fn is_finite(bits: u32) -> bool
    ensures { result ≡ finite_bits bits }
{
    bits % SIGN < INFINITY
}

// Is it below zero? Minus zero is not.
pub(crate) fn is_negative(bits: u32) -> bool
    ensures { result ≡ negative_bits bits }
{
    bits > SIGN
}

// The number of a finite pattern.
#[tactic(auto, using(crate::proofs::Patterns::number_bits, crate::proofs::Patterns::back))]
pub(crate) fn number(bits: u32) -> f32
    requires { finite_bits bits ≡ true }
    ensures value { result ≡ from_bits binary32 bits }
    ensures pattern { bits_of result ≡ bits }
{
    f32::from_bits(bits)
}

// The pattern of a finite number.
#[tactic(auto, using(crate::proofs::Patterns::number_float))]
pub(crate) fn pattern(v: f32) -> u32
    requires { finite_bits (bits_of v) ≡ true }
    ensures { result ≡ bits_of v }
{
    v.to_bits()
}
