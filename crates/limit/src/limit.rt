// What a limit is: of a profile and a sample it gives a grade, or says that nothing fits.
ghost use Rattle.std.specs.Prelude.{◌≡◌, ℕ, ◌+◌, ◌<◌, ◌≤◌, length, ℤ, pos, negsuc, ◌≤ℤ◌};
ghost use Rattle.std.specs.Int.{int_min};
ghost use Rattle.grade.specs.Profiles.{Profile, Within};
ghost use Rattle.grade.specs.Ranks.{ranks};
ghost use Rattle.limit.specs.Numbers.{Number, number_of, least_asked, AsFar, Rule, LimitLaw};

use super::allowed::{Allowed, number_of};
use grade::{Cell, Grade};

// A limit is copied where a sweep goes on for long, so that what it holds stays at hand.
pub trait Limit<G: Grade>: Copy {
    // The meaning of a limit: for each profile and sample the rank of what it gives, or −1 where nothing fits.
    ghost number: { Self → Number };

    fn evaluate(&self, cells: &[Cell<G>], at: usize) -> Option<G>
        ensures { number_of G.Grade.rank result ≡ number self.now (ranks G.Grade.rank cells.now) at };

    // How many samples, from the first on, `within` can be asked about.
    ghost span: { Self → ℕ };

    fn span(&self) -> usize
        ensures { result ≡ span self.now };

    // Where the limit finds what bounds a sample, if it has to search for that.
    fn place(&self, _at: usize) -> usize {
        0
    }

    // The number of a sample between two others, as far as a number: the lesser of the two, or any number below 0 where nothing
    // fits. `near` is where the limit found what bounds the sample before this one, so that it need not search; the answer is
    // the same wherever that is.
    fn within(&self, cells: &[Cell<G>], at: usize, most: i64, near: usize) -> Allowed
        requires after_first { 1 ≤ at }
        requires before_last { at + 1 < length cells.now }
        requires spanned { at < span self.now }
        requires least { least_asked ≤ℤ most }
        requires top { most ≤ℤ pos G.Grade.top }
        ensures { AsFar most (number self.now (ranks G.Grade.rank cells.now) at) result.number }
    {
        Allowed {
            number: most.min(number_of(self.evaluate(cells, at))),
            near,
        }
    }

    // The laws ask only of profiles whose ranks are within the top.
    ghost low: { (l : Self) (p : Profile) (i : ℕ) → Within G.Grade.top p → negsuc 0 ≤ℤ number l p i };

    ghost high: { (l : Self) (p : Profile) (i : ℕ) → Within G.Grade.top p → number l p i ≤ℤ pos G.Grade.top };

    ghost outside: { (l : Self) (p : Profile) (i : ℕ) → Within G.Grade.top p → length p ≤ i → number l p i ≡ pos G.Grade.top };

    ghost monotone: { (l : Self) → Rule G.Grade.top (number l) };
}

// The laws of a limit as one statement.
pub fn lawful<G: Grade, L: Limit<G>>(limit: &L)
    ensures { LimitLaw G.Grade.top (L.Limit.number limit.now) }
{}
