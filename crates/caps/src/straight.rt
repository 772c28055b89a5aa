// The cap of a top speed. A square of two binary32 values has at most 48 digits, so the product in binary64 is exact,
// and so is its scaling by 65536: cutting the fraction off gives the greatest whole number that fits.
ghost use Rattle.std.specs.Prelude.{◌<◌};
ghost use Rattle.caps.specs.Floats.{bits_of, exponent};
ghost use Rattle.caps.specs.Caps.{SpeedCap};

use super::MOST;

pub fn speed_cap(v: f32) -> u32
    requires { exponent (bits_of v) < 255 }
    ensures { SpeedCap (bits_of v) result }
{
    let square = v as f64 * v as f64;
    let scaled = square * 65536.0;
    std::num::saturating_f64_to_u32(scaled).min(MOST)
}
