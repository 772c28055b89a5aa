// Two limits over one make of grade, both of which are kept.
ghost use Rattle.std.specs.Prelude.{◌↔◌, min};
ghost use Rattle.grade.specs.Profiles.{Profile};
ghost use Rattle.grade.specs.Ranks.{ranks};
ghost use Rattle.limit.specs.Numbers.{both, Allows, Keeps, Greatest};
ghost use Rattle.limit.specs.NumbersLemmas.{min_mono};
ghost use Rattle.std.proofs.Common.{rules};

use super::allowed::Allowed;
use super::limit::Limit;
use grade::{Cell, Grade, lower};

#[derive(Clone, Copy, Debug, PartialEq, Eq)]
pub struct Pair<A, B> {
    pub first: A,
    pub second: B,
}

impl<G: Grade, A: Limit<G>, B: Limit<G>> Limit<G> for Pair<A, B> {
    ghost number = { λ l. both (A.Limit.number l.first) (B.Limit.number l.second) };

    ghost low = { Prim.search rules };

    ghost high = { Prim.search rules };

    ghost outside = { Prim.search rules };

    ghost monotone = { λ l p q wp wq len le i. min_mono _ _ _ _ (A.Limit.monotone l.first p q wp wq len le i) (B.Limit.monotone l.second p q wp wq len le i) };

    fn evaluate(&self, cells: &[Cell<G>], at: usize) -> Option<G> {
        let first = self.first.evaluate(cells, at)?;
        let second = self.second.evaluate(cells, at)?;
        Some(lower(first, second))
    }

    ghost span = { λ l. min (A.Limit.span l.first) (B.Limit.span l.second) };

    fn span(&self) -> usize {
        self.first.span().min(self.second.span())
    }

    // Of two limits that search, the place of one: either is as good a guess.
    fn place(&self, at: usize) -> usize {
        self.first.place(at).max(self.second.place(at))
    }

    #[inline(always)]
    fn within(&self, cells: &[Cell<G>], at: usize, most: i64, near: usize) -> Allowed {
        let first = self.first.within(cells, at, most, near);
        self.second.within(cells, at, first.number, first.near)
    }
}

// Each limit has its own two functions, no generic ones: their contracts state its inequality in its own words.

// A profile keeps a pair exactly when it keeps both.
pub fn pair_kept_exactly<G: Grade, A: Limit<G>, B: Limit<G>>(limit: &Pair<A, B>)
    ensures { (p : Profile) → Keeps (both (A.Limit.number limit.now.first) (B.Limit.number limit.now.second)) p ↔ (Keeps (A.Limit.number limit.now.first) p × Keeps (B.Limit.number limit.now.second) p) }
{}

// What a pair gives is the greatest grade that both limits allow at the sample.
pub fn pair_greatest<G: Grade, A: Limit<G>, B: Limit<G>>(
    limit: &Pair<A, B>,
    cells: &[Cell<G>],
    at: usize,
) -> Option<G>
    ensures { Greatest G.Grade.rank G.Grade.top (λ g. Allows (A.Limit.number limit.now.first) (ranks G.Grade.rank cells.now) at g × Allows (B.Limit.number limit.now.second) (ranks G.Grade.rank cells.now) at g) result }
{
    limit.evaluate(cells, at)
}
