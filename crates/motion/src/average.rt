// How far an inner sample may lie above the average of its neighbours.
ghost use Rattle.std.specs.Prelude.{◌≡◌, ◌+◌, length, pos, ◌+ℤ◌};
ghost use Rattle.grade.specs.Ranks.{ranks, speed_rank};
ghost use Rattle.grade.specs.Tops.{speed_top};
ghost use Rattle.limit.specs.Numbers.{KeptExactly, Greatest};
ghost use Rattle.motion.specs.Averages.{average, WithinAverage, WithinAverageAt};
ghost use Rattle.motion.specs.AveragesLemmas.{average_low, average_high, average_outside, average_mono};
ghost use Rattle.grade.proofs.Ranking.{at_most_everywhere};

use super::floor::floor_bound;
use super::offsets::Offsets;
use super::reading::{samples, unbounded, value};
use grade::{Cell, Grade, Speed};
use limit::{Allowed, Limit};

#[derive(Clone, Copy, Debug, PartialEq, Eq)]
pub struct Average<Q> {
    pub offsets: Q,
}

// How often the bounded sample counts, against its two neighbours.
const TWICE: u32 = 2;

impl<Q: Offsets> Limit<Speed> for Average<Q> {
    ghost number = { λ l p i. average (Q.Offsets.offsets l.offsets) p i };

    ghost low = { λ l p i w. average_low (Q.Offsets.offsets l.offsets) p i };

    ghost high = { λ l p i w. average_high (Q.Offsets.offsets l.offsets) p i };

    ghost outside = { λ l p i w h. average_outside (Q.Offsets.offsets l.offsets) p i h };

    ghost monotone = { λ l p q wp wq len le i. average_mono (Q.Offsets.offsets l.offsets) p q len (at_most_everywhere p q len le) i };

    fn evaluate(&self, cells: &[Cell<Speed>], at: usize) -> Option<Speed> {
        if at > 0 && at < self.offsets.len() && at + 1 < samples(cells) {
            let before = value(cells, at - 1);
            let after = value(cells, at + 1);
            floor_bound(TWICE, sum(before, after, self.offsets.offset(at)))
        } else {
            Some(unbounded())
        }
    }

    ghost span = { λ l. length (Q.Offsets.offsets l.offsets) };

    fn span(&self) -> usize {
        self.offsets.len()
    }

    #[inline(always)]
    fn within(&self, cells: &[Cell<Speed>], at: usize, most: i64, near: usize) -> Allowed {
        let before = value(cells, at - 1);
        let sum = sum(before, value(cells, at + 1), self.offsets.offset(at));
        Allowed {
            number: most.min(sum >> 1),
            near,
        }
    }
}

// Two squared speeds and an offset. It fits 64 bits signed: each is at most 2^31 in size.
fn sum(before: Speed, after: Speed, offset: i32) -> i64
    ensures { result ≡ pos (speed_rank before + speed_rank after) +ℤ offset }
{
    before.rank() as i64 + after.rank() as i64 + offset as i64
}

// Each limit has its own two functions, no generic ones: their contracts state its inequality in its own words.

// A profile keeps an average exactly when 2 × w(i) ≤ w(i − 1) + w(i + 1) + q(i) at every inner sample that has a q.
pub fn average_kept_exactly<Q: Offsets>(limit: &Average<Q>)
    ensures { KeptExactly speed_top (average (Q.Offsets.offsets limit.now.offsets)) (WithinAverage (Q.Offsets.offsets limit.now.offsets)) }
{}

// What an average gives is the greatest squared speed that keeps the inequality at the sample, its neighbours as they are.
pub fn average_greatest<Q: Offsets>(
    limit: &Average<Q>,
    cells: &[Cell<Speed>],
    at: usize,
) -> Option<Speed>
    ensures { Greatest speed_rank speed_top (WithinAverageAt (Q.Offsets.offsets limit.now.offsets) (ranks speed_rank cells.now) at) result }
{
    limit.evaluate(cells, at)
}
