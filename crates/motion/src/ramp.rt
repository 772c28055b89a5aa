// How much a profile may rise and fall from sample to sample, for every raisable grade.
ghost use Rattle.std.specs.Prelude.{◌≡◌, ◌+◌, length, pos};
ghost use Rattle.grade.specs.Ranks.{ranks};
ghost use Rattle.limit.specs.Numbers.{KeptExactly, Greatest};
ghost use Rattle.motion.specs.Ramps.{before_allows, after, ramp, WithinSteps, WithinStepsAt};
ghost use Rattle.motion.specs.RampsLemmas.{ramp_low, ramp_high, ramp_outside, ramp_mono};
ghost use Rattle.grade.proofs.Ranking.{at_most_everywhere};

use super::reading::{samples, unbounded, value};
use super::steps::Steps;
use grade::{Cell, Raisable, lower};
use limit::{Allowed, Limit};

#[derive(Clone, Copy, Debug, PartialEq, Eq)]
pub struct Ramp<S> {
    pub steps: S,
}

impl<G: Raisable, S: Steps> Limit<G> for Ramp<S> {
    ghost number = { λ l p i. ramp G.Grade.top (S.Steps.steps l.steps) p i };

    ghost low = { λ l p i w. ramp_low G.Grade.top (S.Steps.steps l.steps) p i };

    ghost high = { λ l p i w. ramp_high G.Grade.top (S.Steps.steps l.steps) p i };

    ghost outside = { λ l p i w h. ramp_outside G.Grade.top (S.Steps.steps l.steps) p i h };

    ghost monotone = { λ l p q wp wq len le i. ramp_mono G.Grade.top (S.Steps.steps l.steps) p q len (at_most_everywhere p q len le) i };

    fn evaluate(&self, cells: &[Cell<G>], at: usize) -> Option<G> {
        let risen = ramp_before(self, cells, at);
        let fallen = ramp_after(self, cells, at);
        Some(lower(risen, fallen))
    }

    ghost span = { λ l. length (S.Steps.steps l.steps) };

    fn span(&self) -> usize {
        self.steps.len()
    }

    #[inline(always)]
    fn within(&self, cells: &[Cell<G>], at: usize, most: i64, near: usize) -> Allowed {
        let risen = raised(value(cells, at - 1), self.steps.step(at - 1).up);
        let fallen = raised(value(cells, at + 1), self.steps.step(at).down);
        Allowed {
            number: most.min(risen).min(fallen),
            near,
        }
    }
}

// A grade's rank and more, which may lie above the top. It fits 64 bits signed: each is below 2^32.
fn raised<G: Raisable>(grade: G, by: u32) -> i64
    ensures { result ≡ pos (G.Grade.rank grade + by) }
{
    grade.rank() as i64 + by as i64
}

// What the sample before allows: its grade, raised by up of the gap between; the top where there is no such sample.
pub fn ramp_before<G: Raisable, S: Steps>(limit: &Ramp<S>, cells: &[Cell<G>], at: usize) -> G
    ensures { pos (G.Grade.rank result) ≡ before_allows G.Grade.top (S.Steps.steps limit.now.steps) (ranks G.Grade.rank cells.now) at }
{
    if at > 0 && at < samples(cells) && at <= limit.steps.len() {
        value(cells, at - 1).raise(limit.steps.step(at - 1).up)
    } else {
        unbounded()
    }
}

// What the sample after allows: its grade, raised by down of the gap between; the top where there is no such sample.
// A text apart from the one before, since neighbour, gap and side of the step all differ.
pub fn ramp_after<G: Raisable, S: Steps>(limit: &Ramp<S>, cells: &[Cell<G>], at: usize) -> G
    ensures { pos (G.Grade.rank result) ≡ after G.Grade.top (S.Steps.steps limit.now.steps) (ranks G.Grade.rank cells.now) at }
{
    if at < limit.steps.len() && at + 1 < samples(cells) {
        value(cells, at + 1).raise(limit.steps.step(at).down)
    } else {
        unbounded()
    }
}

// Each limit has its own two functions, no generic ones: their contracts state its inequality in its own words.

// A profile keeps a ramp exactly when at every gap the next rank is at most the last plus up and the last at most the
// next plus down.
pub fn ramp_kept_exactly<G: Raisable, S: Steps>(limit: &Ramp<S>)
    ensures { KeptExactly G.Grade.top (ramp G.Grade.top (S.Steps.steps limit.now.steps)) (WithinSteps (S.Steps.steps limit.now.steps)) }
{}

// What a ramp gives is the greatest grade that keeps the steps at the sample, its neighbours as they are.
pub fn ramp_greatest<G: Raisable, S: Steps>(
    limit: &Ramp<S>,
    cells: &[Cell<G>],
    at: usize,
) -> Option<G>
    ensures { Greatest G.Grade.rank G.Grade.top (WithinStepsAt (S.Steps.steps limit.now.steps) (ranks G.Grade.rank cells.now) at) result }
{
    limit.evaluate(cells, at)
}
