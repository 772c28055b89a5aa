// The speed that is sent for a squared speed, in units of 1/256 m/s.
ghost use Rattle.std.specs.Prelude.{◌≡◌};
ghost use Rattle.grade.specs.Ranks.{speed_rank};
ghost use Rattle.setpoint.specs.Roots.{Root, root};

use grade::{Grade, Speed};

// The greatest whole number whose square is at most w.
fn whole_root(w: u32) -> u16
    ensures greatest { Root w result }
    ensures root { result ≡ root w }
{
    w.isqrt() as u16
}

// The greatest whole number whose square is at most the squared speed.
pub fn sent_speed(squared: Speed) -> u16
    ensures greatest { Root (speed_rank squared) result }
    ensures root { result ≡ root (speed_rank squared) }
{
    whole_root(squared.rank())
}
