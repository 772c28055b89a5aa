// The first half of a ramp that a question is answered yes at.
ghost use Rattle.std.specs.Prelude.{◌≡◌};
ghost use Rattle.std.specs.Option.{option_or};
ghost use Rattle.grade.specs.Ranks.{ranks};
ghost use Rattle.motion.specs.Ramps.{before_allows, after};
ghost use Rattle.binding.specs.declared.bound.Bound.TheVariants.{RampBefore, RampAfter};
ghost use Rattle.binding.specs.Questions.{judged};

use super::bound::{Bound, Found};
use super::question::{Question, judge};
use grade::{Cell, Raisable};
use motion::{Ramp, Steps, ramp_after, ramp_before};

pub(crate) fn first_ramp<G: Raisable, S: Steps>(
    question: Question,
    limit: &Ramp<S>,
    cells: &[Cell<G>],
    at: usize,
) -> Option<Found>
    ensures { result ≡ option_or (judged question RampBefore (before_allows G.Grade.top (S.Steps.steps limit.now.steps) (ranks G.Grade.rank cells.now) at)) (judged question RampAfter (after G.Grade.top (S.Steps.steps limit.now.steps) (ranks G.Grade.rank cells.now) at)) }
{
    let risen = ramp_before(limit, cells, at);
    judge(question, Bound::RampBefore, Some(risen)).or_else(|| {
        let fallen = ramp_after(limit, cells, at);
        judge(question, Bound::RampAfter, Some(fallen))
    })
}
