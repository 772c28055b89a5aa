// The first of a limit's bounds that a question is answered yes at, the cap before them.
ghost use Rattle.std.specs.Prelude.{◌≡◌, [], ◌∷◌, ◌++◌, ℤ, length};
ghost use Rattle.grade.specs.Ranks.{class_rank, speed_rank, ranks};
ghost use Rattle.grade.specs.Tops.{class_top};
ghost use Rattle.binding.specs.declared.bound.Bound.{Bound};
ghost use Rattle.binding.specs.declared.bound.Bound.TheVariants.{Cap, RampBefore, RampAfter};
ghost use Rattle.binding.specs.Bounds.{plain_bounds, rows_from, RampNumbers, SpeedNumbers};
ghost use Rattle.binding.specs.Questions.{first};

use super::bound::{Bound, Found};
use super::question::{Question, judge};
use super::ramps::first_ramp;
use super::rows::first_row;
use grade::{Cell, Class, Speed};
use limit::Limit;
use motion::{Offsets, Ramp, Sides, SpeedLimit, Steps};

// The cap, and the two halves of the ramp. Apart from the next, since a class has no class table, average or rows; the
// question, limit, cells and number are handed on as they came, through calls that each add a bound.
pub(crate) fn first_in_classes<S: Steps>(
    question: Question,
    cap: Class,
    limit: &Ramp<S>,
    classes: &[Cell<Class>],
    at: usize,
) -> Option<Found>
    ensures { (f : Bound → ℤ) → RampNumbers class_top (class_rank cap) (S.Steps.steps limit.now.steps) (ranks class_rank classes.now) at f → result ≡ first question f (Cap ∷ RampBefore ∷ RampAfter ∷ []) }
{
    judge(question, Bound::Cap, Some(cap)).or_else(|| first_ramp(question, limit, classes, at))
}

// The cap, what the class grants, the two halves of the ramp, the average and the torque rows.
pub(crate) fn first_in_speeds<S: Steps, Q: Offsets, R: Sides>(
    question: Question,
    cap: Speed,
    granted: Speed,
    limit: &SpeedLimit<S, Q, R>,
    speeds: &[Cell<Speed>],
    at: usize,
) -> Option<Found>
    ensures { (f : Bound → ℤ) → SpeedNumbers (speed_rank cap) (speed_rank granted) (S.Steps.steps limit.now.first.steps) (Q.Offsets.offsets limit.now.second.first.offsets) (R.Rows.spacing limit.now.second.second.rows) (R.Rows.rows limit.now.second.second.rows) (ranks speed_rank speeds.now) at f → result ≡ first question f (plain_bounds ++ rows_from 0 (length (R.Rows.rows limit.now.second.second.rows))) }
{
    judge(question, Bound::Cap, Some(cap))
        .or_else(|| judge(question, Bound::Class, Some(granted)))
        .or_else(|| first_ramp(question, &limit.first, speeds, at))
        .or_else(|| judge(
            question,
            Bound::Average,
            limit.second.first.evaluate(speeds, at),
        ))
        .or_else(|| first_row(question, &limit.second.second, speeds, at))
}
