// One of the two inequalities of a row, as three numbers for the flooring leaf:
// own × (the bounded sample) ≤ near × (its neighbour) + constant.
// All fit 64 bits signed: own and near are at most 2^24 and a squared speed is below 2^31, so near × (its neighbour) is
// below 2^55; the constant, 2h times a difference of two numbers of a row, is at most 2^49; the sum stays below 2^56.
ghost use Rattle.std.specs.Prelude.{◌≡◌, pos, ◌≤ℤ◌};
ghost use Rattle.grade.specs.Ranks.{speed_rank};
ghost use Rattle.grade.specs.Tops.{speed_top};
ghost use Rattle.limit.specs.Numbers.{number_of, least_asked, AsFar};
ghost use Rattle.motion.specs.Torques.{Fit, bound};

use super::floor::{floor_bound, floor_within};
use grade::{Grade, Speed};

#[derive(Clone, Copy, Debug, PartialEq, Eq)]
pub struct Triple {
    pub own: u32,
    pub near: u32,
    pub constant: i64,
}

impl Triple {
    // The greatest squared speed that an inequality lets stand beside a neighbour.
    pub(crate) fn bound(self, neighbour: Speed) -> Option<Speed>
        requires { Fit self }
        ensures { number_of speed_rank result ≡ bound self (speed_rank neighbour) }
    {
        let share = self.near as u64 * neighbour.rank() as u64;
        floor_bound(self.own, share as i64 + self.constant)
    }

    // The same, as far as a number.
    #[inline(always)]
    pub(crate) fn within(self, neighbour: Speed, most: i64) -> i64
        requires fits { Fit self }
        requires least { least_asked ≤ℤ most }
        requires top { most ≤ℤ pos speed_top }
        ensures { AsFar most (bound self (speed_rank neighbour)) result }
    {
        let share = self.near as u64 * neighbour.rank() as u64;
        floor_within(self.own, share as i64 + self.constant, most)
    }
}
