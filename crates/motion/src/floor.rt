// The flooring leaf: the greatest squared speed that a factor leaves room for.
ghost use Rattle.std.specs.Prelude.{◌≡◌, ◌*◌, ◌/◌, ◌≤◌, min, pos, ◌≤ℤ◌};
ghost use Rattle.grade.specs.Ranks.{speed_rank};
ghost use Rattle.grade.specs.Tops.{speed_top};
ghost use Rattle.limit.specs.Numbers.{number_of, least_asked, AsFar, Greatest};
ghost use Rattle.motion.specs.Floors.{floored};

use grade::{Grade, Speed};
use limit::NOTHING;

// The greatest g up to the top with factor × g ≤ n, and nothing where n is negative.
pub(crate) fn floor_bound(factor: u32, n: i64) -> Option<Speed>
    requires { 1 ≤ factor }
    ensures number { number_of speed_rank result ≡ floored factor n }
    ensures greatest { Greatest speed_rank speed_top (λ g. pos (factor * g) ≤ℤ n) result }
{
    if n < 0 {
        return None;
    }
    Some(floored_quotient(factor, n as u64))
}

// The greatest g up to the top with factor × g ≤ n, nothing where n is negative, as far as a number. It divides only where the
// number is too great.
#[inline(always)]
pub(crate) fn floor_within(factor: u32, n: i64, most: i64) -> i64
    requires some { 1 ≤ factor }
    requires least { least_asked ≤ℤ most }
    requires top { most ≤ℤ pos speed_top }
    ensures { AsFar most (floored factor n) result }
{
    if factor as i64 * most <= n {
        most
    } else if n < 0 {
        NOTHING
    } else {
        (n as u64 / factor as u64) as i64
    }
}

// The greatest g up to the top with factor × g ≤ n.
fn floored_quotient(factor: u32, n: u64) -> Speed
    requires { 1 ≤ factor }
    ensures { speed_rank result ≡ min (n / factor) speed_top }
{
    let quotient = n / factor as u64;
    Speed::of_rank(quotient.min(Speed::TOP as u64) as u32)
}
