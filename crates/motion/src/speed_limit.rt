// The limit of squared speeds: a pair of ramp with a pair of average and torque.
ghost use Rattle.std.specs.Prelude.{◌≡◌};

use super::average::Average;
use super::offsets::Offsets;
use super::ramp::Ramp;
use super::sides::Sides;
use super::steps::Steps;
use super::torque_limit::Torque;
use limit::Pair;

pub type SpeedLimit<S, Q, R> = Pair<Ramp<S>, Pair<Average<Q>, Torque<R>>>;

// The limit over these data.
pub fn make_speed_limit<S: Steps, Q: Offsets, R: Sides>(
    steps: S,
    offsets: Q,
    rows: R,
) -> SpeedLimit<S, Q, R>
    ensures { result ≡ record { first = record { steps = steps }; second = record { first = record { offsets = offsets }; second = record { rows = rows } } } }
{
    Pair {
        first: Ramp { steps },
        second: Pair {
            first: Average { offsets },
            second: Torque { rows },
        },
    }
}
