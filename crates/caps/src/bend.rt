// The cap of a bend: at curvature k the lateral acceleration |k| × w stays within a.
ghost use Rattle.std.specs.Prelude.{◌<◌};
ghost use Rattle.caps.specs.Floats.{bits_of, exponent, significand, shift};
ghost use Rattle.caps.specs.Caps.{BendCap};

use super::{MOST, SIGN};

// 2^23: a pattern's fraction field is below this, and a normal number's significand begins here.
const NORMAL: u32 = 0x80_0000;
// The size of a binary32 number is a significand times a power of two times 2^-149.
const UNIT: u32 = 149;
// Past these shifts, of the divisor and of the dividend, the quotient changes no more.
const DIVISOR_SHIFT: u32 = 32;

const DIVIDEND_SHIFT: u32 = 55;

pub fn bend_cap(k: f32, a: u32) -> u32
    requires { exponent (bits_of k) < 255 }
    ensures { BendCap (significand (bits_of k)) (shift (bits_of k)) a result }
{
    let bits = k.to_bits();
    let exponent = bits % SIGN / NORMAL;
    let fraction = bits % NORMAL;
    if exponent == 0 {
        quotient_cap(fraction, 0, a)
    } else {
        quotient_cap(NORMAL + fraction, exponent - 1, a)
    }
}

// The greatest w up to MOST with s × 2^x × w ≤ a × 2^149.
fn quotient_cap(s: u32, x: u32, a: u32) -> u32
    requires { (s < 16777216) × (x < 254) }
    ensures { BendCap s x a result }
{
    if s == 0 {
        return MOST;
    }
    let w = if x >= UNIT {
        let by = (x - UNIT).min(DIVISOR_SHIFT);
        a as u128 / ((s as u128) << by)
    } else {
        let by = (UNIT - x).min(DIVIDEND_SHIFT);
        ((a as u128) << by) / s as u128
    };
    w.min(MOST as u128) as u32
}
